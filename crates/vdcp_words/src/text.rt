//! Pieces of text, appended to a buffer of 64 bytes.

ghost use Rattle.std.specs.Prelude.{◌≡◌, ◌+◌, ◌<◌, ◌≤◌, ◌++◌};
ghost use Rattle.arrayvec.specs.ArrayString.{array_string_len};
ghost use Rattle.vdcp_value.specs.IdText.{hex_digit, hex_pair};
ghost use Rattle.vdcp_value.specs.Ids.{text_of_id};
ghost use Rattle.vdcp_words.specs.Texts.{hex_text};

use arrayvec::ArrayString;
use vdcp_value::ClipId;

fn digit(n: u8) -> char
    requires { n < 16 }
    ensures { result ≡ hex_digit n }
{
    let code = if n < 10 { b'0' + n } else { b'a' + (n - 10) };
    char::from(code)
}

pub(crate) fn push_byte(text: &mut ArrayString<64>, byte: u8)
    requires { array_string_len text.old + 2 ≤ 64 }
    ensures text { text.new.bytes ≡ text.old.bytes ++ hex_pair byte }
    ensures len { array_string_len text.new ≡ array_string_len text.old + 2 }
{
    text.push(digit(byte / 16));
    text.push(digit(byte % 16));
}

pub(crate) fn push_time(text: &mut ArrayString<64>, time: &[u8; 4])
    requires { array_string_len text.old + 8 ≤ 64 }
    ensures text { text.new.bytes ≡ text.old.bytes ++ hex_text time.now }
    ensures len { array_string_len text.new ≡ array_string_len text.old + 8 }
{
    let [frames, seconds, minutes, hours] = *time;
    push_byte(text, frames);
    push_byte(text, seconds);
    push_byte(text, minutes);
    push_byte(text, hours);
}

pub(crate) fn push_id(text: &mut ArrayString<64>, id: &ClipId)
    requires { array_string_len text.old + 18 ≤ 64 }
    ensures text { text.new.bytes ≡ text.old.bytes ++ text_of_id id.now }
    ensures room { array_string_len text.new ≤ array_string_len text.old + 18 }
{
    let mut id_text = ArrayString::<18>::new();
    id.show(&mut id_text);
    text.push_str(id_text.as_str());
}

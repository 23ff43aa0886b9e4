//! The two forms of an ID's text: plain, or hexadecimal digits.
ghost use Rattle.std.specs.Prelude.{◌≡◌, ◌≤◌, ◌<◌, ◌↔◌, IsTrue, IsFalse, IsSome, IfSome, IfNone, length, [], ◌++◌, ◌+◌};
ghost use Rattle.std.specs.List.{flat_map, list_all};
ghost use Rattle.vdcp_value.specs.IdText.{is_plain, is_plain_byte, has_edge_space, without_end_spaces, hex_digit, hex_pair, hex_form, is_hex_digit, is_hex_long};
ghost use Rattle.arrayvec.specs.ArrayString.{array_string_len};

use arrayvec::ArrayString;

pub(crate) fn is_plain_byte(byte: u8) -> bool
    ensures { result ≡ is_plain_byte byte }
{
    b' ' <= byte && byte <= b'~'
}

pub(crate) fn is_plain(text: &[u8]) -> bool
    ensures { result ≡ is_plain text.now }
{
    if text.is_empty() || text.len() > 8 {
        return false;
    }
    are_plain(text) && !has_edge_space(text)
}

fn are_plain(text: &[u8]) -> bool
    ensures { result ≡ list_all is_plain_byte text.now }
{
    text.iter().all(|byte| is_plain_byte(*byte))
}

pub(crate) fn has_edge_space(text: &[u8]) -> bool
    requires { 1 ≤ length text.now }
    ensures { result ≡ has_edge_space text.now }
{
    text[0] == b' ' || text[text.len() - 1] == b' '
}

pub(crate) fn is_hex_long(text: &[u8]) -> bool
    ensures { result ≡ is_hex_long text.now }
{
    text.len() == 18 && text[0] == b'0' && text[1] == b'x'
}

pub(crate) fn without_end_spaces(bytes: &[u8]) -> &[u8]
    ensures { result.now ≡ without_end_spaces bytes.now }
{
    let mut kept = bytes;
    while let [front @ .., b' '] = kept {
        kept = front;
    }
    kept
}

pub(crate) fn push_plain(text: &mut ArrayString<18>, plain: &[u8])
    requires room { array_string_len text.old + length plain.now ≤ 18 }
    requires ascii { IsTrue (list_all is_plain_byte plain.now) }
    ensures { text.new.bytes ≡ text.old.bytes ++ plain.now }
{
    for byte in plain {
        text.push(char::from(*byte));
    }
}

#[tactic(auto, using(crate::proofs::HexForm::length_of_pairs))]
pub(crate) fn push_hex(text: &mut ArrayString<18>, bytes: &[u8; 8])
    requires { text.old.bytes ≡ [] }
    ensures { text.new.bytes ≡ hex_form bytes.now }
{
    text.push_str("0x");
    for byte in bytes {
        text.push(char::from(hex_digit(*byte / 16)));
        text.push(char::from(hex_digit(*byte % 16)));
    }
}

pub(crate) fn bytes_of_hex(digits: &[u8]) -> Option<[u8; 8]>
    requires { length digits.now ≡ 16 }
    ensures read { IfSome result (λ bytes. flat_map hex_pair bytes ≡ digits.now) }
    ensures none { IfNone result (IsFalse (list_all is_hex_digit digits.now)) }
{
    let mut bytes = [0; 8];
    for (k, byte) in bytes.iter_mut().enumerate() {
        *byte = 16 * hex_value(digits[2 * k])? + hex_value(digits[2 * k + 1])?;
    }
    Some(bytes)
}

fn hex_digit(n: u8) -> u8
    requires { n < 16 }
    ensures digit { result ≡ hex_digit n }
    ensures ascii { result < 128 }
{
    if n < 10 { b'0' + n } else { b'a' + (n - 10) }
}

fn hex_value(digit: u8) -> Option<u8>
    ensures some { IsSome result ↔ IsTrue (is_hex_digit digit) }
    ensures below { IfSome result (λ n. n < 16) }
    ensures value { IfSome result (λ n. hex_digit n ≡ digit) }
{
    match digit {
        b'0'..=b'9' => Some(digit - b'0'),
        b'a'..=b'f' => Some(digit - b'a' + 10),
        _ => None,
    }
}

//! Items as text.
ghost use Rattle.hex.specs.Hex.{encode_lower};
ghost use Rattle.std.specs.Prelude.{◌≡◌, IfNone, IfSome};
ghost use Rattle.vdcp_text.specs.Items.{shown_time};
ghost use Rattle.vdcp_value.specs.Timecodes.{text_of};

use crate::text::HexText;
use arrayvec::ArrayString;
use std::fmt;
use vdcp_value::laws::a_time_code_has_lawful_bytes;
use vdcp_value::{Item, Rate, Timecode};

// Bytes that write no time code at the rate are shown in hexadecimal digits.
#[derive(Clone, Copy)]
struct TimeText {
    rate: Rate,
    bytes: [u8; 4],
}

impl fmt::Display for TimeText {
    ghost use Rattle.std.specs.Prelude.{Some};
    ghost use Rattle.vdcp_text.specs.Items.{shown_time};

    ghost output = { λ t. Some (shown_time t.rate t.bytes) };

    fn fmt<W: fmt::Write>(&self, f: &mut fmt::Formatter<W>) -> fmt::Result {
        match lawful_time(self.rate, self.bytes) {
            Some(time) => {
                let mut text = ArrayString::<11>::new();
                time.show(&mut text);
                f.write_str(text.as_str())
            }
            None => HexText(&self.bytes).fmt(f),
        }
    }
}

fn lawful_time(rate: Rate, bytes: [u8; 4]) -> Option<Timecode>
    ensures some { IfSome result (λ time. shown_time rate bytes ≡ text_of time) }
    ensures none { IfNone result (shown_time rate bytes ≡ encode_lower bytes) }
{
    a_time_code_has_lawful_bytes();
    match Timecode::from_bcd(rate, bytes) {
        Ok(time) => Some(time),
        Err(_) => None,
    }
}

/// Shows a clip as its ID, a part as its ID, start and duration.
#[derive(Clone, Copy)]
pub struct ItemText {
    pub rate: Rate,
    pub item: Item,
}

impl fmt::Display for ItemText {
    ghost use Rattle.std.specs.Prelude.{Some};
    ghost use Rattle.vdcp_text.specs.Items.{item_text};

    ghost output = { λ i. Some (item_text i.rate i.item) };

    fn fmt<W: fmt::Write>(&self, f: &mut fmt::Formatter<W>) -> fmt::Result {
        let rate = self.rate;
        let mut id = ArrayString::<18>::new();
        self.item.id.show(&mut id);
        let id = id.as_str();
        match self.item.part {
            None => f.write_str(id),
            Some(part) => {
                let bytes = part.start;
                let start = TimeText { rate, bytes };
                let bytes = part.duration;
                let duration = TimeText { rate, bytes };
                write!(f, "{id} {start} {duration}")
            }
        }
    }
}

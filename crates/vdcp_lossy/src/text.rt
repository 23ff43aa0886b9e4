//! The line that is printed of a burst.

use crate::doing::Doing;
use std::{fmt, io};
use vdcp_auto::Way;
use vdcp_frame::{End, Messages};
use vdcp_text::{EndText, MeaningText, MessageText};

/// Writes the line of a burst, and flushes it. `number` is that of the exchange.
pub fn write_burst_line<W: io::Write>(
    number: u32,
    way: Way,
    doing: &Doing,
    came: &[u8],
    out: &mut W,
) -> io::Result<()> {
    let way = way_text(way);
    write!(out, "{number} {way} {doing} ")?;
    write_reading(came, out)?;
    writeln!(out)?;
    out.flush()
}

/// Writes a burst's messages and their meanings in one line, with the end if it isn't clean; `nothing` if there is no byte.
pub fn write_reading<W: io::Write>(burst: &[u8], out: &mut W) -> io::Result<()> {
    let mut between = "";
    let mut messages = Messages::of(burst);
    'messages: while let Some(message) = messages.next() {
        let text = MessageText(message);
        let meaning = MeaningText(message);
        write!(out, "{between}{text}{meaning}")?;
        between = "; ";
    }
    write_end(messages.end(), between, out)
}

fn write_end<W: io::Write>(end: End, between: &str, out: &mut W) -> io::Result<()> {
    match end {
        End::Clean if between.is_empty() => write!(out, "nothing"),
        End::Clean => Ok(()),
        End::Cut(_) | End::Fault(_, _) => {
            let end = EndText(end);
            write!(out, "{between}{end}")
        }
    }
}

fn way_text(way: Way) -> &'static str {
    match way {
        Way::Down => "down",
        Way::Up => "up",
    }
}

impl fmt::Display for Doing {
    fn fmt<W: fmt::Write>(&self, f: &mut fmt::Formatter<W>) -> fmt::Result {
        match self {
            Doing::Through => write!(f, "through"),
            Doing::Lost => write!(f, "lost"),
            Doing::Late => write!(f, "late"),
            Doing::Copied => write!(f, "copied"),
            Doing::Cut(count) => write!(f, "cut {count}"),
            Doing::Damaged(_) => write!(f, "damaged"),
            Doing::Forged(receipt) => {
                let receipt = MessageText(receipt.message());
                write!(f, "forged {receipt} in place of")
            }
        }
    }
}

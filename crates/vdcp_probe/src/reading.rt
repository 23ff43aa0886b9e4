//! The text of a difference.
use std::alloc::{AllocError, Global};
use std::fmt::Write;
use vdcp_frame::Messages;
use vdcp_text::{EndText, HexText, MeaningText, MessageText};

pub fn difference(
    alloc: Global,
    sent: &[u8],
    came: &[u8],
    answers: &[Vec<u8>],
) -> Result<String, AllocError> {
    let mut text = String::new(alloc);
    let digits = HexText(sent);
    write!(text, "sent {digits}, got ")?;
    show_reading(came, &mut text)?;
    write!(text, ", want ")?;
    for k in 0..answers.len() {
        if k > 0 {
            write!(text, " or ")?;
        }
        show_reading(answers[k].as_slice(), &mut text)?;
    }
    Ok(text)
}

fn show_reading(burst: &[u8], text: &mut String) -> Result<(), AllocError> {
    if burst.is_empty() {
        return write!(text, "silence");
    }
    let mut messages = Messages::of(burst);
    'messages: while let Some(message) = messages.next() {
        let shown = MessageText(message);
        let meaning = MeaningText(message);
        write!(text, "{shown}{meaning}; ")?;
    }
    let end = EndText(messages.end());
    write!(text, "{end}")
}

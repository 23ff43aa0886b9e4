//! Bytes, messages and the ends of bursts as text.
use arrayvec::ArrayString;
use std::{fmt, str};
use vdcp_frame::{End, Fault, Message};
use vdcp_words::{Command, Reply};

#[derive(Clone, Copy)]
pub struct HexText<'a>(pub &'a [u8]);

impl fmt::Display for HexText<'_> {
    ghost use Rattle.std.specs.Prelude.{Some};
    ghost use Rattle.hex.specs.Hex.{encode_lower};

    ghost output = { λ h. Some (encode_lower h.0.now) };

    fn fmt<W: fmt::Write>(&self, f: &mut fmt::Formatter<W>) -> fmt::Result {
        // One write of many digits costs far less than a write for each byte.
        for chunk in self.0.chunks(32) {
            let mut room = [0; 64];
            let digits = &mut room[..2 * chunk.len()];
            hex::encode_to_slice(chunk, digits).unwrap();
            f.write_str(str::from_utf8(digits).unwrap())?;
        }
        Ok(())
    }
}

#[derive(Clone, Copy)]
pub struct ByteText(pub u8);

impl fmt::Display for ByteText {
    ghost use Rattle.std.specs.Prelude.{Some};
    ghost use Rattle.vdcp_text.specs.Text.{byte_text};

    ghost output = { λ b. Some (byte_text b.0) };

    fn fmt<W: fmt::Write>(&self, f: &mut fmt::Formatter<W>) -> fmt::Result {
        HexText(&[self.0]).fmt(f)
    }
}

/// Shows data as lower-case hexadecimal digits, and no data as a dash.
#[derive(Clone, Copy)]
pub struct DataText<'a>(pub &'a [u8]);

impl fmt::Display for DataText<'_> {
    ghost use Rattle.std.specs.Prelude.{Some};
    ghost use Rattle.vdcp_text.specs.Text.{data_text};

    ghost output = { λ d. Some (data_text d.0.now) };

    fn fmt<W: fmt::Write>(&self, f: &mut fmt::Formatter<W>) -> fmt::Result {
        match self.0 {
            [] => f.write_str("-"),
            bytes => HexText(bytes).fmt(f),
        }
    }
}

/// Shows a message: `ack`, `nak BB`, or `unit U type T code BB data D`.
#[derive(Clone, Copy)]
pub struct MessageText<'a>(pub Message<'a>);

impl fmt::Display for MessageText<'_> {
    ghost use Rattle.std.specs.Prelude.{Some};
    ghost use Rattle.vdcp_frame.specs.Message.{content_of};
    ghost use Rattle.vdcp_text.specs.Text.{message_text};

    ghost output = { λ m. Some (message_text (content_of m.0)) };

    fn fmt<W: fmt::Write>(&self, f: &mut fmt::Formatter<W>) -> fmt::Result {
        match self.0 {
            Message::Ack => f.write_str("ack"),
            Message::Nak(byte) => {
                let byte = ByteText(byte);
                write!(f, "nak {byte}")
            }
            Message::Framed {
                kind,
                unit,
                code,
                rest,
            } => {
                let code = ByteText(code);
                let rest = DataText(rest);
                write!(f, "unit {unit} type {kind} code {code} data {rest}")
            }
        }
    }
}

/// Shows ` = ` and the command or reply that a message carries; nothing if it carries neither.
#[derive(Clone, Copy)]
pub struct MeaningText<'a>(pub Message<'a>);

impl fmt::Display for MeaningText<'_> {
    ghost use Rattle.std.specs.Prelude.{Some};
    ghost use Rattle.vdcp_frame.specs.Message.{content_of};
    ghost use Rattle.vdcp_text.specs.Meaning.{meaning_text};

    ghost output = { λ m. Some (meaning_text (content_of m.0)) };

    fn fmt<W: fmt::Write>(&self, f: &mut fmt::Formatter<W>) -> fmt::Result {
        if let Message::Ack | Message::Nak(_) = self.0 {
            return Ok(());
        }
        let mut text = ArrayString::<64>::new();
        if let Ok(command) = Command::read(&self.0) {
            command.show(&mut text);
        } else if let Ok(reply) = Reply::read(&self.0) {
            reply.show(&mut text);
        } else {
            return Ok(());
        }
        let text = text.as_str();
        write!(f, " = {text}")
    }
}

/// Shows how a burst ends: `clean`, `cut COUNT`, or `fault` with its name and place.
#[derive(Clone, Copy)]
pub struct EndText(pub End);

impl fmt::Display for EndText {
    ghost use Rattle.std.specs.Prelude.{Some};
    ghost use Rattle.vdcp_frame.specs.Walk.{end_seen};
    ghost use Rattle.vdcp_text.specs.Text.{end_text};

    ghost output = { λ end. Some (end_text (end_seen end.0)) };

    fn fmt<W: fmt::Write>(&self, f: &mut fmt::Formatter<W>) -> fmt::Result {
        match self.0 {
            End::Clean => f.write_str("clean"),
            End::Cut(count) => write!(f, "cut {count}"),
            End::Fault(Fault::BadStart, place) => write!(f, "fault bad-start {place}"),
            End::Fault(Fault::BadCount(count), place) => {
                write!(f, "fault bad-count {place} count {count}")
            }
            End::Fault(Fault::BadSum, place) => write!(f, "fault bad-sum {place}"),
            End::Fault(Fault::Long, place) => write!(f, "fault long {place}"),
        }
    }
}

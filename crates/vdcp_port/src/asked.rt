//! What a message asks of a port, if anything.
ghost use Rattle.std.specs.Prelude.{◌≡◌};
ghost use Rattle.vdcp_frame.specs.Message.{content_of};
ghost use Rattle.vdcp_port.specs.Asked.{asked_of};

use vdcp_frame::Message;
use vdcp_words::Command;

#[derive(Clone, Copy)]
pub(crate) enum Asked {
    /// ACK or NAK, or a framed message to another unit.
    Nothing,
    /// No command has its type and code, or the command has another number of data bytes.
    NoCommand,
    Command(Command),
}

impl Asked {
    pub(crate) fn of(message: &Message, unit: u8) -> Asked
        ensures { result ≡ asked_of unit (content_of message.now) }
    {
        match message {
            Message::Ack | Message::Nak(_) => Asked::Nothing,
            Message::Framed { unit: to, .. } => {
                if *to != unit {
                    return Asked::Nothing;
                }
                match Command::read(message) {
                    Ok(command) => Asked::Command(command),
                    Err(_) => Asked::NoCommand,
                }
            }
        }
    }
}

//! Commands with what came for them, and the inputs of a rehearsal.
ghost use Rattle.std.specs.Prelude.{◌≡◌};
ghost use Rattle.vdcp_frame.specs.Message.{content_of};
ghost use Rattle.vdcp_auto.specs.Heard.{heard_as};

use vdcp_frame::Message;
use vdcp_words::{Command, Reply};

/// What came for a command.
#[derive(Clone, Copy, Debug, PartialEq, Eq)]
pub enum Heard {
    /// ACK or NAK, or a reply that the asked unit framed.
    Reply(Reply),
    /// No reply, or a message of another unit.
    Other,
}

impl Heard {
    /// The message as an answer from `unit`. ACK and NAK name no unit, and count as from any.
    pub fn of_message(message: &Message, unit: u8) -> Heard
        ensures { result ≡ heard_as unit (content_of message.now) }
    {
        if let Message::Framed { unit: from, .. } = message {
            if *from != unit {
                return Heard::Other;
            }
        }
        match Reply::read(message) {
            Ok(reply) => Heard::Reply(reply),
            Err(_) => Heard::Other,
        }
    }
}

/// What happens to a controller in a rehearsal.
#[derive(Clone, Copy, Debug, PartialEq, Eq)]
pub enum Input {
    Heard(Heard),
    Silence,
    Take,
    Stop,
}

/// A command and what came for it.
#[derive(Clone, Copy, Debug, PartialEq, Eq)]
pub struct Exchange {
    pub command: Command,
    /// `None` for silence.
    pub heard: Option<Heard>,
}

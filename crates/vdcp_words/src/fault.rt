//! Why a message is no word of this profile.
use thiserror::Error;

#[derive(Clone, Copy, Debug, PartialEq, Eq, Error)]
pub enum WordFault {
    /// An ACK or a NAK was read as a command.
    #[error("an answer and no command")]
    NotCommand,
    #[error("an unknown type and code")]
    Unknown,
    /// The data is longer or shorter than the command's, or shorter than the reply's.
    #[error("a wrong number of data bytes")]
    Length,
}

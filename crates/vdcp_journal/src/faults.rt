//! Why a journal can't be read or gone on with.
use thiserror::Error;

#[derive(Clone, Copy, Debug, PartialEq, Eq, Error)]
pub enum ResumeFault {
    #[error("has a command that the controller doesn't send there")]
    Command,
    #[error("has something that the controller doesn't await there")]
    Unawaited,
    #[error("has an end that the controller doesn't come to there")]
    Outcome,
}

/// Why bytes are no journal: the first refusal of the lines in order. The heading is row 1.
#[derive(Clone, Copy, Debug, PartialEq, Eq, Error)]
pub enum JournalReadFault {
    #[error("there is no heading")]
    Empty,
    #[error("row 1 {0}")]
    Heading(JournalRowFault),
    #[error("row {0} {1}")]
    Row(usize, JournalRowFault),
    #[error("row {0} has more than 64 KiB")]
    Long(usize),
    #[error("out of memory")]
    Memory,
    #[error("the reader failed")]
    Device,
}

/// What is wrong with a row of a journal: the first that applies.
#[derive(Clone, Copy, Debug, PartialEq, Eq, Error)]
pub enum JournalRowFault {
    /// A heading has 7, a note 4.
    #[error("has a wrong number of fields")]
    Fields,
    #[error("has no time")]
    Time,
    #[error("has no word that is known")]
    Word,
    /// No command has this row at the journal's unit.
    #[error("has no command")]
    Command,
    #[error("has no reply")]
    Reply,
    #[error("has no outcome")]
    Outcome,
    /// None to begin with, or none to leave out.
    #[error("has no event")]
    Event,
    /// Silence, take, stop, hold and go have no text and no bytes.
    #[error("has more than its word")]
    Detail,
    /// A heading's third field isn't 64 lower-case hexadecimal digits.
    #[error("has no digest")]
    Digest,
    /// A heading's fourth field is neither `plain` nor `confirm`.
    #[error("has no mode")]
    Mode,
    /// A heading's unit isn't 0 to 15, its port not 0 to 255, or its limit not below 2^32.
    #[error("has a number that it can't have")]
    Number,
}

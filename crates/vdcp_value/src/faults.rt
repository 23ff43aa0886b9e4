//! Faults of IDs, of time codes and of rows of files.
use std::fmt;
use thiserror::Error;

/// Why a text is no ID's. `ClipId::parse` says which fault is given if several hold.
#[derive(Clone, Copy, Debug, PartialEq, Eq, Error)]
pub enum IdFault {
    #[error("the id is empty")]
    Empty,
    #[error("the id has more than eight bytes")]
    TooLong,
    /// The place, from 1, of the first byte outside 20h to 7Eh.
    #[error("byte {0} of the id is no printable ascii character")]
    BadByte(usize),
    #[error("the id begins or ends with a space")]
    EdgeSpace,
    #[error("the id has a digit that is none of 0-9 and a-f")]
    BadHex,
    #[error("the id has a plain form")]
    HasPlainForm,
}

#[derive(Clone, Copy, Debug, PartialEq, Eq)]
pub enum Field {
    Frames,
    Seconds,
    Minutes,
    Hours,
}

impl fmt::Display for Field {
    fn fmt<W: fmt::Write>(&self, f: &mut fmt::Formatter<W>) -> fmt::Result {
        match self {
            Field::Frames => write!(f, "frames"),
            Field::Seconds => write!(f, "seconds"),
            Field::Minutes => write!(f, "minutes"),
            Field::Hours => write!(f, "hours"),
        }
    }
}

/// Why bytes or a text are no time code at a rate. The first of `Shape`, `NotBcd`, `OutOfRange` and `Dropped` is given.
#[derive(Clone, Copy, Debug, PartialEq, Eq, Error)]
pub enum TcFault {
    /// The place, from 1 to 4, of the first byte with a half above 9. Of bytes only.
    #[error("byte {0} of the time code is no two decimal digits")]
    NotBcd(usize),
    /// The first field out of its range, in the order frames, seconds, minutes, hours.
    #[error("the {0} of the time code are out of range")]
    OutOfRange(Field),
    #[error("the time code is dropped at this rate")]
    Dropped,
    /// A text that hasn't the form `hh:mm:ss:ff`, or at drop frame `hh:mm:ss;ff`.
    #[error("the time code has not the form of one")]
    Shape,
}

/// Why a row is refused. The first of `Long`, `TooMany`, `Columns`, `Id`, `Time` and `Twice` is given.
#[derive(Clone, Copy, Debug, PartialEq, Eq, Error)]
pub enum RowFault {
    #[error("has a wrong number of fields")]
    Columns,
    #[error("has no clip id")]
    Id,
    /// A time code is bad, or is of frame 0 where a length is meant.
    #[error("has no time code that it can have")]
    Time,
    /// Only a catalogue's row is refused for this.
    #[error("has the clip id of an earlier row")]
    Twice,
    /// A file has 10,000 rows at most.
    #[error("is one too many")]
    TooMany,
    /// It has more than 64 KiB; the rest of it isn't read.
    #[error("is too long")]
    Long,
}

//! Why a list isn't read or written, or a clip not added.
use thiserror::Error;
use vdcp_value::RowFault;

/// Why a playlist or a catalogue is refused. The first refusal is given, row by row.
#[derive(Clone, Copy, Debug, PartialEq, Eq, Error)]
pub enum ListFault {
    /// The number of the row is counted from 1.
    #[error("row {0} {1}")]
    Row(usize, RowFault),
    #[error("out of memory")]
    Memory,
    #[error("the reader failed")]
    Read,
}

/// Why a clip isn't added to `Slots`.
#[derive(Clone, Copy, Debug, PartialEq, Eq, Error)]
pub enum SlotFault {
    #[error("the clip is there already")]
    Twice,
    /// There is no room, and no clip of that ID.
    #[error("there is no room for another clip")]
    Full,
}

/// Why an as-run list isn't written.
#[derive(Clone, Copy, Debug, PartialEq, Eq, Error)]
pub enum WriteFault {
    /// A beginning of the text may have been written.
    #[error("the writer failed")]
    Device,
    /// Nothing was written.
    #[error("out of memory")]
    Memory,
    /// The part of this event, counted from 0, isn't lawful at the rate. Nothing was written.
    #[error("the part of event {0} isn't lawful at the rate")]
    Time(usize),
}

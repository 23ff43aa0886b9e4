//! The calls that a page may ask for.
use arrayvec::ArrayVec;

/// How many calls are held at most.
pub const MOST_CALLS: usize = 16;

#[derive(Clone, Copy, Debug, Default, PartialEq, Eq)]
pub enum Call {
    #[default]
    Take,
    /// What plays ends, and nothing comes after it.
    Stop,
    /// Nothing new goes to air after what plays.
    Hold,
    /// What was held back goes to air again.
    Go,
    /// The event of this number in the whole list, from 0, is left out.
    Skip(usize),
}

/// In the order in which they were asked for.
pub type Calls = ArrayVec<Call, MOST_CALLS>;

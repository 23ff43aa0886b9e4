//! What an operator says of the list while it plays.

/// An operator's call on the list. It leaves the controller as it is: who drives that heeds it.
#[derive(Clone, Copy, Debug, PartialEq, Eq)]
pub enum ListCall {
    /// Nothing new is to go to air after what plays.
    Hold,
    /// What is held back is to go to air again.
    Go,
    /// The events from the first one up to the end, which isn't one of them, are left out. They are counted from 0 in the
    /// whole list.
    Skip { first: usize, end: usize },
}

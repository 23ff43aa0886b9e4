//! How far a port is open to its controller.

#[derive(Clone, Copy, Debug, PartialEq, Eq)]
pub enum Access {
    /// OPEN PORT comes first.
    Closed,
    /// SELECT PORT comes next.
    Open,
    /// The port takes what cues, plays, stops and asks.
    Selected,
}

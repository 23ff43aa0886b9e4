//! What can happen on the line and at its ends.
use crate::burst::Burst;

/// What happens on the line, at one of its ends, or in time. Down is the way to the port, up the way to the controller. If
/// it can't happen, nothing changes.
#[derive(Debug, PartialEq, Drop)]
pub enum Event {
    /// The controller's next command goes down; what was on the way is dropped.
    Tick,
    /// The port receives what is on the way down; its answer replaces what was on the way up.
    Down,
    /// The controller hears the first message of what is on the way up.
    Up,
    /// As `Down`, but the burst stays on the way, and the answer is lost.
    DownCopy,
    UpCopy,
    LoseDown,
    LoseUp,
    /// What is on the way down becomes these bytes, if `can_become` says so.
    AlterDown(Burst),
    /// The same of the way up; in confirm mode also 1,024 bytes at most, of which ACK or NAK is read first.
    AlterUp(Burst),
    /// Nothing came in time. (If something is on the way, this can't happen.)
    Timeout,
    /// The port's cue is done.
    Ready,
    /// The clip on air has ended.
    End,
    Frame,
    /// The operator wants the next event though the last one still plays.
    Take,
    Stop,
    /// In confirm mode: a receipt from nowhere comes to the controller.
    StrayAck,
    StrayNak(u8),
}

//! The modes and the phases of a controller, and where an exchange leads.
ghost use Rattle.std.specs.Prelude.{◌≡◌};

use crate::outcome::Outcome;
use vdcp_words::Command;

/// What a controller takes for proof that a command was executed.
#[derive(Clone, Copy, Debug, PartialEq, Eq)]
pub enum Mode {
    /// What comes answers the awaited command.
    Plain,
    /// ACK and NAK may come from nowhere, so only replies to requests count.
    Confirming,
}

/// Where a controller is: the phase of the command that it sends next or whose answer it awaits, with the event from 0.
///
/// ```text
/// plain mode                                confirm mode
///
/// Open -> Select ------+                    Open -> Select <-> Seen --+
///                      |                                              |
///   +------------------+                      +-----------------------+
///   |                                         |
///   +-> Exists(k) -> Cue(k) -> Wait(k)        +-> Exists(k) -> Cue(k) <-> Wait(k)
///   |                             |           |                              |
///   |                             v           |                              v
///   |              Probe(k) <-> Play(k)       |               Probe(k) <-> Play(k)
///   |                  |          |           |                   |
///   |                  v          v           |                   v
///   +- k + 1 ---------- Check(k)              +- k + 1 ------- Check(k)
///   |                                         |
///   +- no event left -> Drain -> Close        +- no event left -> Drain -> Close
/// ```
///
/// After the operator's stop the next tick goes to Halt, which sends STOP, and then to HaltClose, which sends CLOSE;
/// but not from Close, Halt and HaltClose. Close ends Done, and HaltClose Stopped. A reply can lead to other ends, and
/// unanswered exchanges lead to Lost.
#[derive(Clone, Copy, Debug, PartialEq, Eq)]
pub enum Phase {
    Open,
    Select,
    /// A status that shows whether the port is selected (confirm mode).
    Seen,
    /// Whether the event's clip is there: ID REQUEST.
    Exists(usize),
    Cue(usize),
    /// A status, until the cue is done and the last clip has ended or is taken over.
    Wait(usize),
    Play(usize),
    /// A status that shows whether an unanswered PLAY was executed.
    Probe(usize),
    /// Whether another clip plays than the event's, which is settled: ACTIVE ID.
    Check(usize),
    /// A status, until the last clip has ended.
    Drain,
    Close,
    Halt,
    HaltClose,
}

impl Phase {
    ghost use Rattle.vdcp_auto.specs.Table.{can_stop};

    /// Whether the operator's stop counts in this phase.
    pub fn can_stop(self) -> bool
        ensures { result ≡ can_stop self }
    {
        match self {
            Phase::Close | Phase::Halt | Phase::HaltClose => false,
            Phase::Open
            | Phase::Select
            | Phase::Seen
            | Phase::Exists(_)
            | Phase::Cue(_)
            | Phase::Wait(_)
            | Phase::Play(_)
            | Phase::Probe(_)
            | Phase::Check(_)
            | Phase::Drain => true,
        }
    }
}

#[derive(Clone, Copy)]
pub enum Position {
    /// The next tick gives this phase's command, or STOP if the operator wants to stop.
    Ready(Phase),
    Awaiting(Phase, Command),
    Ended(Outcome),
}

#[derive(Clone, Copy)]
pub enum Transition {
    Goes(Phase),
    /// This event has aired: it is settled, and checked next.
    Settles(usize),
    /// The cue of this event was lost, and is sent once more.
    Retries(usize),
    Ends(Outcome),
}

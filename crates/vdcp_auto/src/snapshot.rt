//! A controller's state as plain data, taken between two calls and put back later.
ghost use Rattle.std.specs.Prelude.{ℕ, ◌≡◌, ◌≤◌, ◌<◌, ◌↔◌, IsTrue, IsSome, IfSome, Some, length};
ghost use Rattle.vdcp_auto.specs.Bounds.{IsPhaseOf};
ghost use Rattle.vdcp_auto.specs.Snapshots.{CanStand, state_in, view_of};
ghost use Rattle.vdcp_auto.specs.Turn as turns;

use crate::controller::Controller;
use crate::outcome::Outcome;
use crate::phase::{Mode, Phase, Position};
use crate::source::Source;

#[derive(Clone, Copy, Debug, PartialEq, Eq)]
pub enum Standing {
    Ready(Phase),
    Awaiting(Phase),
    Ended(Outcome),
}

/// All that a controller knows, but for its list.
#[derive(Clone, Copy, Debug, PartialEq, Eq)]
pub struct Snapshot {
    pub mode: Mode,
    pub port: u8,
    pub limit: u32,
    pub standing: Standing,
    pub take: bool,
    pub stop: bool,
    pub unanswered: u32,
    pub settled: usize,
    pub tries: u32,
}

impl Snapshot {
    pub fn new(mode: Mode, port: u8, limit: u32) -> Snapshot
        requires some { 1 ≤ limit }
        requires few { limit ≤ 1000 }
        ensures made { (result.mode ≡ mode) × (result.port ≡ port) × (result.limit ≡ limit) }
        ensures start { state_in result ≡ turns.start }
        ensures can { (count : ℕ) → CanStand count result }
    {
        Snapshot {
            mode,
            port,
            limit,
            standing: Standing::Ready(Phase::Open),
            take: false,
            stop: false,
            unanswered: 0,
            settled: 0,
            tries: 0,
        }
    }

    /// Whether a controller over a list of this length can be in this state.
    pub fn can_stand(&self, length: usize) -> bool
        ensures { IsTrue result ↔ CanStand length self.now }
    {
        if self.limit < 1
            || self.limit > 1000
            || self.tries >= self.limit
            || self.settled > length
        {
            return false;
        }
        match self.standing {
            Standing::Ready(phase) | Standing::Awaiting(phase) => {
                is_phase_of(length, phase) && self.unanswered < self.limit
            }
            Standing::Ended(_) => true,
        }
    }
}

fn is_phase_of(length: usize, phase: Phase) -> bool
    ensures { IsTrue result ↔ IsPhaseOf length phase }
{
    match phase {
        Phase::Exists(k)
        | Phase::Cue(k)
        | Phase::Wait(k)
        | Phase::Play(k)
        | Phase::Probe(k)
        | Phase::Check(k) => k < length,
        Phase::Open
        | Phase::Select
        | Phase::Seen
        | Phase::Drain
        | Phase::Close
        | Phase::Halt
        | Phase::HaltClose => true,
    }
}

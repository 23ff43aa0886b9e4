//! A run whose first cue isn't done for long says so.
ghost use Rattle.std.specs.Prelude.{◌≡◌, ◌↔◌, Bool, IsTrue, true};
ghost use Rattle.vdcp_auto.specs.Replies.{is_done};
ghost use Rattle.vdcp_auto.specs.State.{Awaiting};
ghost use Rattle.vdcp_auto.specs.declared.phase.Phase.{Phase};
ghost use Rattle.vdcp_run.specs.Stalls.{first_stall, stall_after, stall_heard};

use std::rt::Clock;
use vdcp_auto::{Controller, Heard, Phase, Source, Standing};
use vdcp_drive::Hearing;
use vdcp_wire::Stopwatch;
use vdcp_words::Reply;
use vdcp_words::state::CUE_DONE;

// In nanoseconds.
const PATIENCE: u64 = 5_000_000_000;

// Since when the first event is being cued.
#[derive(Clone, Copy)]
enum Stall {
    Nothing,
    Since(u64),
    /// It is told, or won't be.
    Told,
}

/// Tells once that the first cue isn't done after five seconds. (Not of a run that hears at silences: by these a server
/// may count frames.)
#[derive(Drop)]
pub struct Stalling<'r, R: Clock> {
    stopwatch: Stopwatch<&'r R>,
    stall: Stall,
}

impl<'r, R: Clock> Stalling<'r, R> {
    pub fn new(clock: &'r R, hearing: Hearing) -> Self
        ensures { result.stall ≡ first_stall hearing }
    {
        Stalling {
            stopwatch: Stopwatch::new(clock),
            stall: match hearing {
                Hearing::AtSilences => Stall::Told,
                Hearing::AtOnce => Stall::Nothing,
            },
        }
    }

    /// A state that shows the cue done ends a stall: what is cued waits for the clip before, or is held.
    pub fn note_end(&mut self, heard: Option<Heard>)
        ensures { self.new ≡ record self.old { stall = stall_heard heard self.old.stall } }
    {
        self.stall = stall_after_end(heard, self.stall);
    }

    /// Whether a stall is to be told now.
    pub fn look<S: Source>(&mut self, controller: &Controller<S>) -> bool
        ensures { (cues : Bool) → (cues ≡ true ↔ controller.now.state.stage ≡ Awaiting (Phase.Wait 0)) →
            self.new.stall ≡ stall_after cues self.old.stall self.new.stopwatch.now }
    {
        let stall = self.stall;
        self.stall = stall_after(is_cued_first(controller), stall, self.stopwatch.read());
        matches!((stall, self.stall), (Stall::Since(_), Stall::Told))
    }
}

fn is_cued_first<S: Source>(controller: &Controller<S>) -> bool
    ensures { IsTrue result ↔ controller.now.state.stage ≡ Awaiting (Phase.Wait 0) }
{
    matches!(
        controller.snapshot().standing,
        Standing::Awaiting(Phase::Wait(0))
    )
}

fn stall_after_end(heard: Option<Heard>, stall: Stall) -> Stall
    ensures { result ≡ stall_heard heard stall }
{
    match (heard, stall) {
        (_, Stall::Nothing | Stall::Told) => stall,
        (Some(Heard::Reply(reply)), Stall::Since(_)) if is_done(reply) => Stall::Nothing,
        (_, Stall::Since(_)) => stall,
    }
}

fn is_done(reply: Reply) -> bool
    ensures { result ≡ is_done reply }
{
    match reply {
        Reply::State(_, Some(state)) => state & CUE_DONE != 0,
        _ => false,
    }
}

fn stall_after(cues: bool, stall: Stall, now: u64) -> Stall
    ensures { result ≡ stall_after cues stall now }
{
    match (stall, cues) {
        (Stall::Told, _) => Stall::Told,
        (_, false) => Stall::Nothing,
        (Stall::Nothing, true) => Stall::Since(now),
        (Stall::Since(then), true) => {
            if now.saturating_sub(then) < PATIENCE {
                Stall::Since(then)
            } else {
                Stall::Told
            }
        }
    }
}

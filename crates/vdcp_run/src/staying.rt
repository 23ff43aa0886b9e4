//! A run that stays: whether it tries again, and when.
ghost use Rattle.std.specs.Prelude.{◌≡◌, ◌↔◌, ◌+◌, ◌-◌, ◌^◌, ◌<◌, ◌≤◌, IfSome, IsTrue, Some, min};
ghost use Rattle.vdcp_run.specs.Run.{IsSilentFor, first_event, later_of, once_occupied, once_unsure};

use crate::run_end::RunEnd;
use crate::settings::{RunJournal, RunSettings, Unsure};
use std::rt::Clock;
use vdcp_auto::Mode;
use vdcp_wire::Stopwatch;

/// From the beginning of one try to that of the next, in nanoseconds.
const PACE: u64 = 1_000_000_000;

/// The longest sleep, in nanoseconds: between two the operator is asked.
const PIECE: u64 = 20_000_000;

/// The settings of the next try of a list of `count` events. There is one only if the run stays, nobody stopped it, its
/// journal is whole and a turn is left. If the server has lost the port, or the controller of the journal's rows was lost
/// before, a new run begins there; in confirm mode it asks first whether the port is empty. If the line ended this try, the
/// next one goes on from the journal. If the next event is left out, a new run begins behind it. A connection takes at least
/// one turn.
pub fn later_of<'a>(
    end: &RunEnd<'_>,
    count: usize,
    settings: RunSettings<'a>,
) -> Option<RunSettings<'a>>
    ensures later { result ≡ later_of settings.entry count end.now }
    ensures same { IfSome result (λ later. (later.unit ≡ settings.entry.unit) × (later.limit ≡ settings.entry.limit)) }
    ensures listed { first_event settings.entry.from ≤ count → IfSome result (λ later. first_event later.from ≤ count) }
    ensures fewer { IfSome result (λ later. later.listens < settings.entry.listens) }
{
    let (stay, journal) = (settings.stay?, settings.journal?);
    let left = end.left.min(settings.listens.saturating_sub(1));
    if end.signs.stopped || end.unkept.is_some() || left == 0 {
        return None;
    }
    let anew = RunSettings {
        journal: Some(RunJournal::Again(journal.name())),
        from: None,
        listens: left,
        ..settings
    };
    if end.has_lost_port(journal) {
        return Some(RunSettings {
            ask: settings.ask || settings.mode == Mode::Confirming,
            ..anew
        });
    }
    if end.is_by_line() {
        return Some(RunSettings {
            journal: Some(RunJournal::Older(journal.name())),
            from: settings.from,
            ..anew
        });
    }
    let first = end.behind_left_out(stay.skip, settings.mode, count)?;
    Some(RunSettings {
        ask: false,
        journal: Some(end.journal_behind(journal)),
        from: Some(first),
        ..anew
    })
}

/// The settings of a run that stays, of so many events, once this one may have aired.
pub fn once_unsure<'a>(
    event: usize,
    count: usize,
    settings: RunSettings<'a>,
) -> Option<RunSettings<'a>>
    ensures later { result ≡ once_unsure settings.entry count (Some event) }
    ensures same { IfSome result (λ later. (later.unit ≡ settings.entry.unit) × (later.limit ≡ settings.entry.limit)) }
    ensures listed { IfSome result (λ later. first_event later.from ≤ count) }
    ensures fewer { IfSome result (λ later. later.listens < settings.entry.listens) }
{
    let stay = settings.stay?;
    if event >= count || settings.listens <= 1 {
        return None;
    }
    let first = match stay.unsure {
        Unsure::LeaveOut => event + 1,
        Unsure::Again => event,
        Unsure::Stop => return None,
    };
    Some(RunSettings {
        from: Some(first),
        listens: settings.listens - 1,
        ..settings
    })
}

/// The settings of a run that stays once the port wasn't empty: if it goes on in its journal it asks again.
pub fn once_occupied<'a>(settings: RunSettings<'a>) -> Option<RunSettings<'a>>
    ensures later { result ≡ once_occupied settings.entry }
    ensures same { IfSome result (λ later. (later.unit ≡ settings.entry.unit) × (later.limit ≡ settings.entry.limit)) }
    ensures listed { IfSome result (λ later. later.from ≡ settings.entry.from) }
    ensures fewer { IfSome result (λ later. later.listens < settings.entry.listens) }
{
    settings.stay?;
    let name = match settings.journal? {
        RunJournal::New(_) => return None,
        RunJournal::Older(name) | RunJournal::Again(name) | RunJournal::Left(name) => name,
    };
    if settings.listens <= 1 {
        return None;
    }
    Some(RunSettings {
        journal: Some(RunJournal::Older(name)),
        listens: settings.listens - 1,
        ..settings
    })
}

/// When a run that stays connects: at once, and then a second after it last did.
#[derive(Drop)]
pub struct Pace<'r, R: Clock> {
    stopwatch: Stopwatch<&'r R>,
    due: u64,
    // Since when nothing is heard of the server.
    silent: u64,
}

impl<'r, R: Clock> Pace<'r, R> {
    pub fn new(clock: &'r R) -> Self
        ensures due { result.due ≡ 0 }
        ensures silent { result.silent ≡ result.stopwatch.now }
    {
        let mut stopwatch = Stopwatch::new(clock);
        let silent = stopwatch.read();
        Pace {
            stopwatch,
            due: 0,
            silent,
        }
    }

    pub fn begin(&mut self)
        ensures due { self.new.due ≡ min (self.new.stopwatch.now + 1000000000) (2 ^ 64 - 1) }
        ensures silent { self.new.silent ≡ self.old.silent }
    {
        self.due = self.stopwatch.read().saturating_add(PACE);
    }

    /// Waits for the next try, but a piece of time at most; true if the try may begin.
    pub fn wait_piece(&mut self) -> bool
        ensures due { IsTrue result → self.new.due ≤ self.new.stopwatch.now }
        ensures stays { self.new.due ≡ self.old.due }
    {
        let left = self.due.saturating_sub(self.stopwatch.read());
        if left == 0 {
            return true;
        }
        self.stopwatch.sleep(left.min(PIECE));
        false
    }

    /// Something was heard of the server just now, or it is waited for from now on.
    pub fn note_heard(&mut self)
        ensures silent { self.new.silent ≡ self.new.stopwatch.now }
        ensures due { self.new.due ≡ self.old.due }
    {
        self.silent = self.stopwatch.read();
    }

    /// Whether nothing was heard for so many seconds. Without a number that is never so.
    pub fn is_spent(&mut self, patience: Option<u32>) -> bool
        ensures spent { IsTrue result ↔ IsSilentFor patience self.old.silent self.new.stopwatch.now }
        ensures stays { (self.new.due ≡ self.old.due) × (self.new.silent ≡ self.old.silent) }
    {
        let Some(seconds) = patience else {
            return false;
        };
        let silent = self.stopwatch.read().saturating_sub(self.silent);
        silent >= u64::from(seconds) * 1_000_000_000
    }
}

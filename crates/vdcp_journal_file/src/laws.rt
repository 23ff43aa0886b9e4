//! The laws of what a recorder keeps. What a law says is the contract of its function.
ghost use Rattle.std.specs.Prelude.{◌++◌, ◌≡◌, ℕ, [], List, None, Option, Result, Some};
ghost use Rattle.vdcp_auto.specs.Plan.{Plan};
ghost use Rattle.vdcp_auto.specs.Turn.{awaited};
ghost use Rattle.vdcp_drive.specs.Auto.{Auto};
ghost use Rattle.vdcp_drive.specs.Leaves.{HasRun, steps_in};
ghost use Rattle.vdcp_drive.specs.Steps.{Happens, Step, World};
ghost use Rattle.vdcp_drive.specs.Traces.{commands_kept, kept_in};
ghost use Rattle.vdcp_drive.specs.declared.hooks.BrokenOff.{BrokenOff};
ghost use Rattle.vdcp_drive.specs.declared.line.Ran.{Ran};
ghost use Rattle.vdcp_journal.specs.declared.row.Row.{Row};
ghost use Rattle.vdcp_journal_file.specs.Recorded.{AreKept, HasSafe, IsRecorded, MayHold, WaitsSince, recorder_rules};
ghost use Rattle.vdcp_journal_file.specs.Recording.{Recording};

use crate::disk::Disk;
use crate::recorder::Recorder;
use std::rt::{Clock, Files};
use vdcp_auto::Source;
use vdcp_drive::{Ear, Wire, laws};

/// A run with a `Recorder` in its hooks is recorded, whatever its automation and its answer were: at each moment the safe
/// rows have each command of which a byte went out, but for those that ask for the state and an announced PLAY. If nothing
/// was awaited before the run, they are what was kept in it, without what says nothing new or waits for a later row.
pub fn a_run_is_recorded<
    'a,
    'r,
    S: Source,
    E: Ear,
    W: Wire,
    R: Files + Clock + AllocGlobal + 'r,
    F: Disk + Drop,
>()
    ensures recorded { (plan : Plan) (unit count : ℕ) (a a' : Auto E)
        (old new : World W (Option (Recording F))) (answer : Result Ran BrokenOff) →
        (h : HasRun (recorder_rules W.does F.safe) E.fold plan unit count a a' old new answer) → (before : Recording F) →
        old.keep ≡ Some before → MayHold before.pending → (since : Recording F) × (new.keep ≡ Some since)
        × IsRecorded F.safe W.told E.fold plan unit a a' old.wire new.wire answer before since h.run.events
        (kept_in (steps_in h.run)) }
    ensures unrecorded { (plan : Plan) (unit count : ℕ) (a a' : Auto E)
        (old new : World W (Option (Recording F))) (answer : Result Ran BrokenOff) →
        HasRun (recorder_rules W.does F.safe) E.fold plan unit count a a' old new answer → old.keep ≡ None → new.keep ≡ None }
    ensures moments { (some : List Step) (old moment : World W (Option (Recording F))) →
        Happens (recorder_rules W.does F.safe) some old moment → AreKept some →
        (before : Recording F) → old.keep ≡ Some before → MayHold before.pending →
        (since : Recording F) × (rows : List Row) × (moment.keep ≡ Some since)
        × HasSafe F.safe before since (commands_kept (kept_in some)) rows [] }
    ensures waits { (plan : Plan) (unit count : ℕ) (a a' : Auto E)
        (old new moment : World W (Option (Recording F))) (answer : Result Ran BrokenOff) (some more : List Step) →
        (h : HasRun (recorder_rules W.does F.safe) E.fold plan unit count a a' old new answer) →
        steps_in h.run ≡ some ++ more → Happens (recorder_rules W.does F.safe) some old moment → AreKept some →
        awaited plan a.state ≡ None → (before : Recording F) → old.keep ≡ Some before → MayHold before.pending →
        (since : Recording F) × (rows : List Row) × (moment.keep ≡ Some since)
        × HasSafe F.safe before since (commands_kept (kept_in some)) rows []
        × WaitsSince before.pending (kept_in some) rows since.pending }
{
    laws::what_a_run_keeps::<S, E, W, Option<Recorder<'a, 'r, R, F>>>();
}

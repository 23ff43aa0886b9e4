//! The laws of what is asked before a list's own commands, and of the tries of a run. The functions do nothing.
ghost use Rattle.std.specs.Borrow.{Bor};
ghost use Rattle.std.specs.Prelude.{◌≡◌, ◌⊎◌, ℕ, Bool, List, None, Option, Result, Some, false, length, true};
ghost use Rattle.vdcp_drive.specs.Auto.{Auto};
ghost use Rattle.vdcp_drive.specs.Leaves.{HasRun, steps_in};
ghost use Rattle.vdcp_drive.specs.Steps.{World};
ghost use Rattle.vdcp_drive.specs.Traces.{commands_kept, kept_in};
ghost use Rattle.vdcp_drive.specs.declared.hooks.BrokenOff.{BrokenOff};
ghost use Rattle.vdcp_drive.specs.declared.line.Ran.{Ran};
ghost use Rattle.vdcp_run.specs.Asking.{AreAsked, Asker, Inquiring, Start, asker_of, asking};
ghost use Rattle.vdcp_run.specs.Run.{BeginsBehind, CameTo, IsAtRest, IsTry, keeps_line, later_after, later_of};
ghost use Rattle.vdcp_run.specs.declared.run_end.RunEnd.{RunEnd};
ghost use Rattle.vdcp_run.specs.declared.settings.RunJournal.TheVariants as journals;
ghost use Rattle.vdcp_run.specs.declared.settings.RunSettings.{RunSettings};
ghost use Rattle.vdcp_text.specs.declared.failure.Failure.{Failure};
ghost use Rattle.vdcp_value.specs.declared.part.Item.{Item};
ghost use Rattle.vdcp_wire.specs.Streams.{Streamed};

use crate::run_end::LineEnd;
use vdcp_drive::{Ear, Hearing, Wire};

/// Before a controller's next command nothing is asked but OPEN and SELECT of its port and STATUS, if it opens the port next,
/// and STATUS, if it asks whether a PLAY was lost, or while one is held: each command that the automation gives that asks is
/// one of these. (What goes out is a beginning of these: `vdcp_drive::laws::what_goes_out_is_kept`.)
pub fn only_questions_are_asked<E: Ear, W: Wire>()
    ensures { (ask holds : Bool) (start : Start) (asker : Asker) (unit count : ℕ) (a a' : Auto E) (old new : World W Inquiring)
        (answer : Result Ran BrokenOff) → asker_of ask holds start ≡ Some asker → a.state ≡ asker.state →
        (h : HasRun (asking W.does asker.plan) E.fold asker.plan unit count a a' old new answer) →
        AreAsked start (commands_kept (kept_in (steps_in h.run))) }
{}

/// A run that stays and begins anew in its journal sends no event again that has aired, and one that may have aired only if the
/// settings say so. It begins with the first event that isn't reported; or behind it, if that event may have aired, can't be
/// played, or is left out by the operator.
pub fn a_new_run_begins_behind<S>()
    ensures behind { (before next : RunSettings) (items : List Item) (wire left : Option Streamed) (end : Result RunEnd Failure)
        (name : Bor (List ℕ)) → CameTo S before items wire end left → later_after before (length items) end ≡ Some next
        → (next.journal ≡ Some (journals.Again name)) ⊎ (next.journal ≡ Some (journals.Left name)) → BeginsBehind items end next }
    // Its journal says that the operator left the run before only if that is so, and all of this run's rows are written.
    ensures left { (before next : RunSettings) (count : ℕ) (end : RunEnd) (name : Bor (List ℕ))
        → later_of before count end ≡ Some next → next.journal ≡ Some (journals.Left name)
        → (end.unkept ≡ None) × ((kept : ℕ) × (end.line ≡ LineEnd.LeftOut kept) × (next.from ≡ Some kept)) }
{}

/// A try leaves its line to the next one only if each command over it was answered, and no answer is awaited.
pub fn a_line_is_left_at_rest()
    ensures { (settings : RunSettings) (count : ℕ) (end : RunEnd) → keeps_line settings count end ≡ true
        → (settings.hearing ≡ Hearing.AtOnce) × (end.signs.unanswered ≡ false) × IsAtRest end.line }
{}

/// A run that doesn't stay makes one try: with the settings that it has.
pub fn a_run_makes_one_try<S>()
    ensures { (settings last : RunSettings) (items : List Item) (wire : Option Streamed) → settings.stay ≡ None
        → IsTry S settings items last wire → last ≡ settings }
{}

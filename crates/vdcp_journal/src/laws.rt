//! The laws of the definitions in `specs/`. What a law says is the contract of its function.

ghost use Rattle.std.specs.Prelude.{◌≡◌, ◌≤◌, ℕ, List, [], ◌∷◌, ◌++◌, ◌+◌, IsTrue, Some, false, length, take};
ghost use Rattle.vdcp_auto.specs.Course.{Reached};
ghost use Rattle.vdcp_auto.specs.Law.{IsLawful};
ghost use Rattle.vdcp_auto.specs.Plan.{Plan};
ghost use Rattle.vdcp_auto.specs.Settled.{may_have_aired};
ghost use Rattle.vdcp_auto.specs.State.{State};
ghost use Rattle.vdcp_auto.specs.Turn.{came_to, given, outcome_of, start, taken, ticked};
ghost use Rattle.vdcp_auto.specs.declared.exchange.Heard.{Heard};
ghost use Rattle.vdcp_auto.specs.declared.phase.Mode.{Mode};
ghost use Rattle.vdcp_journal.specs.Airings.{settled_in};
ghost use Rattle.vdcp_journal.specs.ListCalls.{list_calls};
ghost use Rattle.vdcp_journal.specs.Resume.{AreTold, MayGoOn, after_rows, log_of, timed_out};
ghost use Rattle.vdcp_journal.specs.Reading.{AreWritable, IsWritableHeading, whole_lines};
ghost use Rattle.vdcp_journal.specs.Rows.{journal_fields, journal_text};
ghost use Rattle.vdcp_journal.specs.Runs.{begins_at, ended_in, ended_runs, last_run, leaves, run_after, runs_of};
ghost use Rattle.vdcp_journal.specs.Mending.{announced_state};
ghost use Rattle.vdcp_journal.specs.Thinned.{AreThinned, hears_done, hears_free};
ghost use Rattle.vdcp_journal.specs.declared.moment.Moment.{Moment};
ghost use Rattle.vdcp_journal.specs.declared.row.Heading.{Heading};
ghost use Rattle.vdcp_journal.specs.declared.row.Note.TheVariants as note;
ghost use Rattle.vdcp_journal.specs.declared.row.Row.{Row};
ghost use Rattle.vdcp_list.specs.Rows.{rows_of};
ghost use Rattle.vdcp_words.specs.declared.command.Command.TheVariants.{Play};

use vdcp_auto::laws::{a_log_grows, reached_is_lawful};
use vdcp_value::laws::an_id_has_one_text;

/// If each row tells what a new controller does, calls lead to the controller that goes on, and its log is the rows'. So
/// the rule book allows each command of that log, and the controller counts the settled events that the log shows.
pub fn what_is_told_is_lawful()
    ensures reached { (plan : Plan) (rows : List Row) → 1 ≤ plan.limit → plan.limit ≤ 1000 → AreTold plan start rows →
        Reached plan (timed_out plan (after_rows plan start rows)) (log_of rows) }
    ensures lawful { (plan : Plan) (rows : List Row) → 1 ≤ plan.limit → plan.limit ≤ 1000 → AreTold plan start rows →
        IsLawful plan (timed_out plan (after_rows plan start rows)) (log_of rows) }
{
    reached_is_lawful();
}

/// The rows of a run that was lost, or hasn't ended, are also those of a run with a greater limit: so it may go on as that.
pub fn a_greater_limit_tells_the_same()
    ensures { (plan : Plan) (limit : ℕ) (rows : List Row) → plan.limit ≤ limit → AreTold plan start rows →
        MayGoOn (outcome_of (after_rows plan start rows).stage) →
        AreTold (record plan { limit = limit }) start rows }
{}

/// The runs of a journal follow one another: a row belongs to the last run, which nobody has left, or begins another after it.
pub fn runs_follow_one_another()
    ensures all { (rows : List Row) → runs_of rows ≡ ended_in rows ++ last_run rows ∷ [] }
    ensures goes_on { (rows : List Row) (row : Row) → last_run (rows ++ row ∷ [])
        ≡ run_after (begins_at row.note) row (last_run rows) }
    ensures ends { (rows : List Row) (row : Row) → ended_in (rows ++ row ∷ [])
        ≡ ended_in rows ++ ended_runs (begins_at row.note) (leaves row.note) (last_run rows) }
    ensures stays { (rows : List Row) → (last_run rows).left ≡ false }
    ensures counts { (rows : List Row) → (last_run rows).begin + length (last_run rows).rows ≡ length rows }
{}

/// The whole lines of a journal, read as CSV, are its rows. Wherever it is cut, as by a writer that was killed, they are
/// a front of its rows: a torn row is left out.
pub fn a_cut_journal_is_a_front_of_its_rows()
    ensures whole { (time : Moment) (heading : Heading) (rows : List Row) → IsWritableHeading heading
        → AreWritable rows →
        rows_of (whole_lines (journal_text time heading rows)) ≡ journal_fields time heading rows }
    ensures cut { (time : Moment) (heading : Heading) (rows : List Row) (n : ℕ) → IsWritableHeading heading
        → AreWritable rows →
        (m : ℕ) × (rows_of (whole_lines (take n (journal_text time heading rows)))
        ≡ take m (journal_fields time heading rows)) }
{
    an_id_has_one_text();
}

/// Rows that leave out only what says nothing new make the same controller, say the same of the list, and show as many
/// events to be aired, and whether one more may have.
pub fn a_thinned_journal_makes_the_same()
    ensures makes { (plan : Plan) (all rows : List Row) → AreThinned all rows → AreTold plan start all →
        after_rows plan start rows ≡ after_rows plan start all }
    ensures told { (plan : Plan) (all rows : List Row) → AreThinned all rows → AreTold plan start all →
        AreTold plan start rows }
    ensures says { (all rows : List Row) → AreThinned all rows → list_calls rows ≡ list_calls all }
    ensures counts { (mode : Mode) (all rows : List Row) → AreThinned all rows →
        settled_in mode rows ≡ settled_in mode all }
    ensures airs { (mode : Mode) (all rows : List Row) → AreThinned all rows →
        may_have_aired mode (log_of rows) ≡ may_have_aired mode (log_of all) }
{
    a_log_grows();
}

/// The PLAY that `mended` adds would come next if what was heard last were heard again after a take, unless the operator
/// wants to stop. The state that is added before lets it go out, and the cue is done.
pub fn an_announced_play_comes_next()
    ensures { (plan : Plan) (state : State) (h free : Heard) → announced_state (Some h) state.stage ≡ Some free →
        state.stop ≡ false → (given plan (came_to plan (Some h) (taken (ticked state))) ≡ Some Play)
        × IsTrue (hears_done (note.Heard h)) × IsTrue (hears_free (note.Heard free)) }
{}

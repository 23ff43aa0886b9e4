//! The laws of runs that are killed, any number of times, and go on from their journals.
ghost use Rattle.std.specs.Prelude.{◌≡◌, ◌∷◌, ◌++◌, [], All, Bool, IsTrue, List, None, Some, map};
ghost use Rattle.vdcp_value.specs.declared.part.Item.{Item};
ghost use Rattle.vdcp_auto.specs.Plan.{Plan};
ghost use Rattle.vdcp_auto.specs.declared.exchange.Heard.{Heard};
ghost use Rattle.vdcp_auto.specs.Turn.{given, start};
ghost use Rattle.vdcp_journal.specs.Mending.{mended, rows_at};
ghost use Rattle.vdcp_journal.specs.Resume.{AreTold, after_rows, plan_after};
ghost use Rattle.vdcp_journal.specs.Runs.{last_run};
ghost use Rattle.vdcp_journal.specs.Thinned.{AreThinned, IsThinned, asks_state, hears_done, hears_free, notes_in, takes};
ghost use Rattle.vdcp_journal.specs.declared.moment.Moment.{Moment};
ghost use Rattle.vdcp_journal.specs.declared.row.Note.{Note};
ghost use Rattle.vdcp_journal.specs.declared.row.Note.TheVariants as note;
ghost use Rattle.vdcp_journal.specs.declared.row.Row.{Row};
ghost use Rattle.vdcp_laws.specs.Announced.{Announces, played_notes};
ghost use Rattle.vdcp_laws.specs.Kills.{IsRun, asked_in_vain, played, silence_notes};
ghost use Rattle.vdcp_laws.specs.Mended.{AreOfJoined, Finds, IsGoneOnWith};
ghost use Rattle.vdcp_laws.specs.TwoEnds.{CanJoin};
ghost use Rattle.vdcp_port.specs.Clock.{ClockedPort};
ghost use Rattle.vdcp_world.specs.LateLine.GoingOn.{IsNoTick, gone_on};
ghost use Rattle.vdcp_world.specs.LateLine.LateChannel.{LateChannel, IsLateReached, after_late_event, after_late_events};
ghost use Rattle.vdcp_world.specs.LateLine.LateHeadline.{LateHeadline};
ghost use Rattle.vdcp_world.specs.LateLine.LateEvent.{LateEvent};
ghost use Rattle.vdcp_world.specs.LateLine.LateEvent.{Tick};
ghost use Rattle.vdcp_words.specs.declared.command.Command.{Command};
ghost use Rattle.vdcp_words.specs.declared.command.Command.TheVariants.{Play};

/// The headline holds however often the automation is killed and goes on from its journal, on any line that keeps order,
/// if each command's row is safe before it goes out: what came since is lost and what was awaited times out, as a line
/// could have had it (`goes_on`). The journal makes the same state, also if it leaves out what says nothing new.
pub fn a_killed_run_keeps_the_headline()
    ensures goes_on { (c : LateChannel) (notes : List Note) (since : List LateEvent) → IsRun c notes →
        All IsNoTick since → IsRun (gone_on c (after_late_events c since)) (notes ++ silence_notes c) }
    ensures headline { (c : LateChannel) (notes : List Note) → IsRun c notes → LateHeadline c }
    ensures reached { (c : LateChannel) (notes : List Note) → IsRun c notes → IsLateReached c }
    ensures told { (c : LateChannel) (all rows : List Row) → IsRun c (notes_in all) → AreThinned all rows →
        AreTold c.plan start rows }
    ensures journal { (c : LateChannel) (all rows : List Row) → IsRun c (notes_in all) → AreThinned all rows →
        after_rows c.plan start rows ≡ c.state }
{
    vdcp_world::laws::a_late_line_keeps_the_headline();
    vdcp_world::laws::a_killed_automation_goes_on();
    vdcp_journal::laws::a_thinned_journal_makes_the_same();
}

/// The command that a controller of the safe rows gives next may have gone out before its row was safe: whether it did or
/// not, going on takes it for sent and timed out, as a line could have had it.
pub fn what_asks_may_go_out_unkept()
    ensures went { (c : LateChannel) (notes : List Note) (asks : Command) (since : List LateEvent) → IsRun c notes →
        given c.plan c.state ≡ Some asks → All IsNoTick since →
        IsRun (gone_on (after_late_event c Tick) (after_late_events c (Tick ∷ since)))
        (notes ++ (note.Sent asks ∷ note.Silence ∷ [])) }
    ensures stayed { (c : LateChannel) (notes : List Note) (asks : Command) (since : List LateEvent) → IsRun c notes →
        given c.plan c.state ≡ Some asks → All IsNoTick since →
        IsRun (asked_in_vain (gone_on c (after_late_events c since))) (notes ++ (note.Sent asks ∷ note.Silence ∷ [])) }
{}

/// A PLAY that the state heard last announces, whatever brought that, may have gone out before its row was safe, after the
/// state was asked once more. If it didn't, going on may take it for given and lost all the same, as a line could have had
/// it (`goes`). Either way the rows may tell of any state that lets a PLAY go out (`shows`).
pub fn an_announced_play_may_go_out_unkept()
    ensures goes { (c : LateChannel) (notes : List Note) (h : Heard) (since : List LateEvent) → IsRun c notes →
        Announces c.plan c.state notes h → All IsNoTick since →
        IsRun (gone_on (played h c) (after_late_events c since)) (notes ++ played_notes (given c.plan c.state) h) }
    ensures shows { (asked rows : List Note) (took : Bool) (h : Heard) (free : Note) (asks : Command) →
        IsThinned asked (rows ++ note.Sent asks ∷ []) → IsTrue (asks_state (note.Sent asks)) →
        IsTrue (hears_done (note.Heard h)) → IsTrue (hears_free free) →
        IsThinned (asked ++ (takes took ++ note.Heard h ∷ note.Sent Play ∷ note.Silence ∷ []))
        (rows ++ (note.Sent asks ∷ free ∷ note.Sent Play ∷ note.Silence ∷ [])) }
{
    vdcp_port::laws::the_unit_stays();
}

/// A journal whose rows are safe of joined ends is gone on with, over a new connection to their server, or to one that was
/// started anew: what going on adds (`mended`) may have gone out of them; taken for given, it makes the rows a journal of
/// both ends again, joined behind what aired, and the controller that a session begins with; under a limit that is greater
/// wherever the rows say that the run was lost (`plan_after`).
pub fn a_mended_journal_is_gone_on_with()
    ensures { (plan : Plan) (port now found : ClockedPort) (asked : List Command) (aired : List Item) (journal : List Row)
        (time : Moment) → CanJoin plan port asked → let run : List Row = (last_run journal).rows in
        AreOfJoined (plan_after plan run) port asked now aired run → Finds now found →
        let rows : List Row = run ++ rows_at time (mended (plan_after plan run) journal run) in
        IsGoneOnWith (plan_after plan rows) port asked found aired rows }
{
    vdcp_journal::laws::an_announced_play_comes_next();
    vdcp_journal::laws::a_thinned_journal_makes_the_same();
    crate::two_ends::a_journal_makes_the_automation();
}

//! The laws of both ends over two streams of bytes that keep order, one connection after another.
ghost use Rattle.std.specs.Prelude.{ℕ, Bool, ◌≡◌, ◌≤◌, ◌<◌, ◌+◌, ◌++◌, [], drop, false, All, AllPairs, IfSome, List, length, IsTrue, Option, None, Some, Result, map};
ghost use Rattle.vdcp_value.specs.declared.part.Item.{Item};
ghost use Rattle.vdcp_words.specs.declared.command.Command.{Command};
ghost use Rattle.vdcp_world.specs.AnyPort.{CanRun};
ghost use Rattle.vdcp_world.specs.Headline.{Means};
ghost use Rattle.vdcp_world.specs.InTime.{PlaysOn};
ghost use Rattle.vdcp_port.specs.Clips.{is_playable};
ghost use Rattle.vdcp_port.specs.Clock.{ClockedPort};
ghost use Rattle.vdcp_port.specs.Port.{empty};
ghost use Rattle.vdcp_auto.specs.Course.{logged};
ghost use Rattle.vdcp_auto.specs.Plan.{Plan};
ghost use Rattle.vdcp_auto.specs.Settled.{may_have_aired};
ghost use Rattle.vdcp_auto.specs.State.{State};
ghost use Rattle.vdcp_auto.specs.Turn.{ended_by, given, outcome_of, start};
ghost use Rattle.vdcp_auto.specs.declared.exchange.Heard.{Heard};
ghost use Rattle.vdcp_auto.specs.declared.outcome.Outcome.{Outcome};
ghost use Rattle.vdcp_auto.specs.declared.phase.Mode.TheVariants.{Confirming};
ghost use Rattle.vdcp_journal.specs.Airings.{settled_in};
ghost use Rattle.vdcp_journal.specs.Resume.{AreTold, after_rows, log_of};
ghost use Rattle.vdcp_journal.specs.Thinned.{AreThinned, notes_in};
ghost use Rattle.vdcp_journal.specs.declared.row.Row.{Row};
ghost use Rattle.vdcp_wire.specs.Acts.{Act};
ghost use Rattle.vdcp_drive.specs.Auto as auto;
ghost use Rattle.vdcp_drive.specs.Auto.{Auto, Event, after, arrivals};
ghost use Rattle.vdcp_drive.specs.Hearing.{at_once};
ghost use Rattle.vdcp_drive.specs.Leaves.{IsRun, steps_in};
ghost use Rattle.vdcp_drive.specs.Reading.{Held};
ghost use Rattle.vdcp_drive.specs.Steps.{steps_of};
ghost use Rattle.vdcp_drive.specs.Traces.{acts_in, kept_in};
ghost use Rattle.vdcp_drive.specs.declared.hooks.BrokenOff.{BrokenOff};
ghost use Rattle.vdcp_drive.specs.declared.line.Ran.{Ran};
ghost use Rattle.vdcp_drive.specs.Serving.{acts_of, begins, items_in, left_by, hook_steps};
ghost use Rattle.vdcp_drive.specs.Turns.{Turn};
ghost use Rattle.vdcp_world.specs.LateLine.LateHeadline.{is_late_complete};
ghost use Rattle.vdcp_journal_file.specs.Recorded.{note_for};
ghost use Rattle.vdcp_laws.specs.AsNew.{AreAnswered, IsAsNew};
ghost use Rattle.vdcp_laws.specs.Automation.{new_prompt};
ghost use Rattle.vdcp_laws.specs.Announced.{Announces, played_notes};
ghost use Rattle.vdcp_laws.specs.Below.{Laws};
ghost use Rattle.vdcp_laws.specs.Carried.{AreCarried, driver_of};
ghost use Rattle.vdcp_laws.specs.EndsHeadline.{EndsHeadline};
ghost use Rattle.vdcp_laws.specs.OneConnection.{ends_at};
ghost use Rattle.vdcp_laws.specs.Servers.{IsServed};
ghost use Rattle.vdcp_laws.specs.SeveralRuns.{AiredEvent, AsksAtMost, HaveAired, IsEvent, aired_from};
ghost use Rattle.vdcp_laws.specs.TwoEnds.{AreJoined, AreLed, CanJoin, Ends, IsLateChannel, IsSince, Step, aired_now, connected_anew, heard_again, log_now, new_ends, notes_given, port_now, with_command, with_kept};
ghost use Rattle.vdcp_laws.specs.Untorn.{AreUntorn, at_once_for, server_at_silences};
ghost use Rattle.vdcp_laws.specs.InTime.{AreChannel, AreNewInTime, CutsShort, IsInTime, IsNoStopNote, IsNoTakeNote, IsPiece};

use vdcp_drive::{AtOnce, Hearing, ServerHooks};
use vdcp_port::Catalogue;
use vdcp_wire::Wire;

/// An automation and a server that hear at once, joined by two streams of bytes that keep order, are a late channel,
/// whatever comes of them (`Step`): also with questions to the port, kills and restarts, over one connection after
/// another. It is a run that has the journal's notes.
pub fn two_ends_are_a_late_channel()
    ensures ends { (plan : Plan) (port : ClockedPort) (asked : List Command) (e : Ends) → CanJoin plan port asked →
        AreJoined plan port asked e → IsLateChannel plan port e }
{
    what_is_below();
}

/// So the headline holds of the two ends: what aired is a beginning of the playlist, each event once and in order; the
/// automation reports all of it but for the last event at most, and all after a complete end; its end means what it says.
pub fn two_ends_keep_the_headline()
    ensures ends { (plan : Plan) (port : ClockedPort) (asked : List Command) (e : Ends) → CanJoin plan port asked →
        AreJoined plan port asked e → EndsHeadline plan port.clips e.automation.state (log_now e) (aired_now e) }
{
    two_ends_are_a_late_channel();
    vdcp_world::laws::a_late_line_keeps_the_headline();
}

/// A server that hears at silences does what one does that hears at once, with a frame after each silence, if no burst has a
/// fault and each silence comes after whole commands.
pub fn untorn_turns_are_at_once()
    ensures acts { (port : ClockedPort) (turns : List Turn) → AreUntorn [] turns →
        acts_of (begins Hearing.AtOnce port) (at_once_for turns) ≡ acts_of (begins Hearing.AtSilences port) turns }
    ensures items { (port : ClockedPort) (turns : List Turn) → AreUntorn [] turns →
        items_in (hook_steps (begins Hearing.AtOnce port) (at_once_for turns))
        ≡ items_in (hook_steps (begins Hearing.AtSilences port) turns) }
    ensures port { (port : ClockedPort) (turns : List Turn) → AreUntorn [] turns →
        (left_by (begins Hearing.AtOnce port) (at_once_for turns)).port ≡ (server_at_silences port turns).port }
{
    what_is_below();
    vdcp_frame::laws::written_is_read();
    vdcp_drive::laws::servers_go_on();
}

/// So the headline holds of a driver that hears at once, and of a server that does or whose silences tear no command, if
/// the wires carry to each, in order, a beginning of what the other sent by then. Each is new or runs again, the driver
/// also from its journal over a new connection, and calls, frames and ends may be any.
pub fn a_carried_run_keeps_the_headline<C: Catalogue, B: Wire, H: ServerHooks<C>>()
    ensures headline { (plan : Plan) (port : ClockedPort) (asked : List Command) (e : Ends) (count : ℕ) (a' : Auto Held)
        (answer : Result Ran BrokenOff) (turns : List Turn) (below : List Act) (aired : List Item) → CanJoin plan port asked →
        AreJoined plan port asked e → (run : IsRun at_once plan port.state.unit count (driver_of e.automation) a' answer) →
        IsServed B.does H.can_act H.does e turns below aired →
        AreCarried port.state.unit e (acts_in (steps_in run)) below → EndsHeadline plan port.clips a'.state
        (log_now e ++ auto.log_of at_once plan port.state.unit (driver_of e.automation) run.events) aired }
    ensures joined { (plan : Plan) (port : ClockedPort) (asked : List Command) (e : Ends) (count : ℕ) (a' : Auto Held)
        (answer : Result Ran BrokenOff) (turns : List Turn) (below : List Act) (aired : List Item) →
        AreJoined plan port asked e → (run : IsRun at_once plan port.state.unit count (driver_of e.automation) a' answer) →
        IsServed B.does H.can_act H.does e turns below aired →
        AreCarried port.state.unit e (acts_in (steps_in run)) below →
        AreJoined plan port asked (ends_at plan port.state.unit e run.events (e.downs ++ turns)) }
{
    two_ends_are_a_late_channel();
    vdcp_world::laws::a_late_line_keeps_the_headline();
    untorn_turns_are_at_once();
    vdcp_drive::laws::servers_go_on();
    vdcp_drive::laws::what_goes_out_is_answered();
}

/// After an end at which all that aired is reported nothing more airs, whatever is still on its way.
pub fn nothing_airs_after_a_complete_end()
    ensures { (plan : Plan) (port : ClockedPort) (asked : List Command) (e later : Ends) (outcome : Outcome) →
        CanJoin plan port asked → AreJoined plan port asked e → outcome_of e.automation.state.stage ≡ Some outcome →
        IsTrue (is_late_complete plan.mode outcome) → AreLed plan port.state.unit e later →
        aired_now later ≡ aired_now e }
{
    two_ends_are_a_late_channel();
    vdcp_world::laws::a_late_line_keeps_the_headline();
}

/// Once as many messages were heard over a connection as commands were sent, both ends are as over a new one (`as_new`), and
/// the next run may begin there (`begins`, `carried`).
pub fn an_answered_connection_is_as_new()
    ensures as_new { (plan : Plan) (port : ClockedPort) (asked : List Command) (e : Ends) → CanJoin plan port asked →
        AreJoined plan port asked e → AreAnswered e → IsAsNew e }
    ensures begins { (plan : Plan) (port : ClockedPort) (asked : List Command) (e : Ends) (first : ℕ) →
        CanJoin plan port asked → AreJoined plan port asked e →
        (plan.mode ≡ Confirming → (port_now e).state.cued ≡ empty) →
        CanJoin (record plan { list = drop first plan.list }) (port_now e) [] }
    ensures carried { (e : Ends) (autos below : List Act) → IsAsNew e → let now : ClockedPort = port_now e in
        AreCarried now.state.unit e autos below → AreCarried now.state.unit (new_ends now []) autos below }
{
    what_is_below();
}

/// Several runs of a list, each begun behind all that aired before it, air each event once at most and in order; if none
/// was left out, a beginning of the list. A run aired as many as its journal settles, also as a kill left that, if it
/// shows that no event more may have aired (`next`), and in any case one more at most (`most`).
pub fn several_runs_air_each_event_once()
    ensures once { (list : List Item) (aired : List AiredEvent) → HaveAired list aired →
        AllPairs (λ (a b : AiredEvent). a.number < b.number) aired }
    ensures events { (list : List Item) (aired : List AiredEvent) → HaveAired list aired → All (IsEvent list) aired }
    ensures list { (list items : List Item) → HaveAired list (aired_from 0 items) → (more : List Item) × (list ≡ items ++ more) }
    ensures next { (plan : Plan) (port : ClockedPort) (asked : List Command) (kept now : Ends) (all rows asks : List Row) →
        CanJoin plan port asked → AreJoined plan port asked kept → IsSince plan port.state.unit kept now →
        notes_in all ≡ kept.notes → AreThinned all (rows ++ asks) → AsksAtMost asks →
        may_have_aired plan.mode (log_of rows) ≡ false → length (aired_now now) ≡ settled_in plan.mode rows }
    ensures most { (plan : Plan) (port : ClockedPort) (asked : List Command) (kept now : Ends) (all rows asks : List Row) →
        CanJoin plan port asked → AreJoined plan port asked kept → IsSince plan port.state.unit kept now →
        notes_in all ≡ kept.notes → AreThinned all (rows ++ asks) → AsksAtMost asks →
        length (aired_now now) ≤ settled_in plan.mode rows + 1 }
{
    two_ends_are_a_late_channel();
    vdcp_world::laws::a_late_line_keeps_the_headline();
    vdcp_journal::laws::a_thinned_journal_makes_the_same();
    vdcp_auto::laws::a_log_grows();
}

/// If nothing awaited times out before all that was sent has come (`AreNewInTime`), a new automation and a server, its port
/// in any state, are a channel that loses nothing, and keep its headline. A playable list that isn't stopped airs whole
/// (`plays`: `docs/PROOFS.md` has the number of exchanges), and without a take no clip is cut short (`uncut`), also behind an
/// event that was left out while it was cued.
pub fn ends_in_time_are_a_channel()
    ensures channel { (plan : Plan) (port : ClockedPort) (e : Ends) → CanRun plan port → AreNewInTime plan port e →
        AreChannel plan port e }
    ensures ended { (plan : Plan) (port : ClockedPort) (e : Ends) → CanRun plan port → AreNewInTime plan port e →
        IfSome (outcome_of e.automation.state.stage) (Means port.clips plan (aired_now e) (log_now e)) }
    ensures plays { (plan : Plan) (port : ClockedPort) (e : Ends) → CanRun plan port →
        AreNewInTime plan port e → All (λ item. IsTrue (is_playable port.clips item)) plan.list →
        All IsNoStopNote e.notes → PlaysOn plan e.automation.state (aired_now e) (log_now e) 0 }
    ensures uncut { (plan : Plan) (port : ClockedPort) (e e' : Ends) → CanRun plan port →
        AreNewInTime plan port e → (step : Step plan port.state.unit e e') → IsInTime step →
        All IsNoTakeNote e.notes → ¬ CutsShort e e' }
{
    what_is_below();
    vdcp_world::laws::what_loses_nothing_plays_the_list();
    vdcp_world::laws::any_port_keeps_the_headline();
    vdcp_world::laws::no_cut_without_a_take();
}

/// A new driver and a server are in time if each listen of the driver brings bytes, so that nothing times out.
pub fn what_is_never_silent_is_in_time<C: Catalogue, B: Wire, H: ServerHooks<C>>()
    ensures { (plan : Plan) (port : ClockedPort) (count : ℕ) (a' : Auto Held) (answer : Result Ran BrokenOff)
        (turns : List Turn) (below : List Act) (aired : List Item) →
        (run : IsRun at_once plan port.state.unit count (driver_of new_prompt) a' answer) →
        All IsPiece (arrivals run.events) → IsServed B.does H.can_act H.does (new_ends port []) turns below aired →
        AreCarried port.state.unit (new_ends port []) (acts_in (steps_in run)) below →
        AreNewInTime plan port (ends_at plan port.state.unit (new_ends port []) run.events turns) }
{
    untorn_turns_are_at_once();
    vdcp_drive::laws::servers_go_on();
    vdcp_drive::laws::what_goes_out_is_answered();
    vdcp_drive::laws::steps_are_exchanges::<AtOnce>();
}

/// A killed automation goes on from its last safe note, if it gave no command since: what came since is lost, and the
/// server stays as it is. A new connection may follow. The next command, or a PLAY that the notes announce, may have gone
/// out without its row: going on may take it for given.
pub fn a_kill_loses_what_came_since()
    ensures joined { (plan : Plan) (port : ClockedPort) (asked : List Command) (kept now : Ends) →
        AreJoined plan port asked kept → IsSince plan port.state.unit kept now → AreJoined plan port asked (with_kept kept now) }
    ensures gives { (plan : Plan) (port : ClockedPort) (asked : List Command) (kept now : Ends) →
        AreJoined plan port asked kept → IsSince plan port.state.unit kept now →
        AreJoined plan port asked (with_command plan (with_kept kept now)) }
    ensures port { (plan : Plan) (port : ClockedPort) (asked : List Command) (kept now : Ends) →
        AreJoined plan port asked kept → IsSince plan port.state.unit kept now → port_now (with_kept kept now) ≡ port_now now }
    ensures aired { (plan : Plan) (port : ClockedPort) (asked : List Command) (kept now : Ends) →
        AreJoined plan port asked kept → IsSince plan port.state.unit kept now → aired_now (with_kept kept now) ≡ aired_now now }
{}

/// The rows of an automation's notes, also if they leave out what a journal may, make the controller that it has, and each
/// tells what a controller does there. Their log is its log, with the awaited command timed out.
pub fn a_journal_makes_the_automation()
    ensures makes { (plan : Plan) (port : ClockedPort) (asked : List Command) (e : Ends) (all rows : List Row) →
        CanJoin plan port asked → AreJoined plan port asked e → notes_in all ≡ e.notes → AreThinned all rows →
        after_rows plan start rows ≡ e.automation.state }
    ensures told { (plan : Plan) (port : ClockedPort) (asked : List Command) (e : Ends) (all rows : List Row) →
        CanJoin plan port asked → AreJoined plan port asked e → notes_in all ≡ e.notes → AreThinned all rows →
        AreTold plan start rows }
    ensures shows { (plan : Plan) (port : ClockedPort) (asked : List Command) (e : Ends) (all : List Row) →
        AreJoined plan port asked e → notes_in all ≡ e.notes →
        log_of all ≡ logged (log_now e) (ended_by plan None e.automation.state) }
    ensures announced { (plan : Plan) (port : ClockedPort) (e : Ends) (h : Heard) →
        Announces plan e.automation.state e.notes h →
        (connected_anew plan port (with_command plan (heard_again plan h e))).notes
        ≡ e.notes ++ played_notes (given plan e.automation.state) h }
    ensures kept { (plan : Plan) (unit : ℕ) (e : Ends) (events : List Event) (downs : List Turn) →
        (ends_at plan unit e events downs).notes ≡ (e.notes ++ map note_for
        (kept_in (steps_of at_once plan unit (driver_of e.automation) events)))
        ++ notes_given plan (after at_once plan unit (driver_of e.automation) events).state }
{
    two_ends_are_a_late_channel();
    vdcp_journal::laws::a_thinned_journal_makes_the_same();
}

pub(crate) fn what_is_below()
    ensures { Laws }
{
    vdcp_world::laws::a_killed_automation_goes_on();
    vdcp_auto::laws::reached_is_lawful();
    vdcp_frame::laws::no_spelling_begins_another();
    vdcp_frame::laws::one_spelling();
    vdcp_frame::laws::what_is_spelt_is_bytes();
    vdcp_frame::laws::a_spelling_is_its_message();
    vdcp_frame::laws::what_is_followed_is_read();
    vdcp_words::laws::command_is_read_first();
    vdcp_words::laws::reply_is_read_first();
    vdcp_port::laws::messages_after_messages();
    vdcp_port::laws::the_unit_stays();
    vdcp_port::laws::a_burst_of_one_message();
    vdcp_port::laws::answers_are_read_back();
    vdcp_auto::laws::commands_can_be_written();
    vdcp_drive::laws::what_is_spelt_is_completed();
    vdcp_drive::laws::one_event_more();
}

//! The laws of what `vdcp run` does over a connection, from its first question to its last byte, and over the next one.
ghost use Rattle.std.specs.Prelude.{ℕ, ◌≡◌, ◌∷◌, ◌++◌, [], false, List, None, Option};
ghost use Rattle.vdcp_value.specs.declared.clip_id.ClipId.{ClipId};
ghost use Rattle.vdcp_value.specs.declared.part.Item.{Item};
ghost use Rattle.vdcp_value.specs.declared.rate.Rate.{Rate};
ghost use Rattle.vdcp_value.specs.declared.timecode.Timecode.{Timecode};
ghost use Rattle.vdcp_words.specs.declared.command.Command.{Command};
ghost use Rattle.vdcp_port.specs.Clock.{ClockedPort};
ghost use Rattle.vdcp_auto.specs.Plan.{Plan};
ghost use Rattle.vdcp_auto.specs.State.{State};
ghost use Rattle.vdcp_auto.specs.Turn.{awaited};
ghost use Rattle.vdcp_auto.specs.declared.exchange.Exchange.{Exchange};
ghost use Rattle.vdcp_wire.specs.Acts.{Act};
ghost use Rattle.vdcp_drive.specs.Auto.{AreMade, Event};
ghost use Rattle.vdcp_drive.specs.Hearing.{at_once};
ghost use Rattle.vdcp_drive.specs.Reading.{Held, holds};
ghost use Rattle.vdcp_drive.specs.Steps.{Step, steps_of};
ghost use Rattle.vdcp_drive.specs.Traces.{acts_in, bytes_of, came_in, kept_in, sent_in};
ghost use Rattle.vdcp_drive.specs.Turns.{Turn};
ghost use Rattle.vdcp_drive.specs.declared.hooks.Kept.{Kept};
ghost use Rattle.vdcp_journal.specs.Mending.{mended, rows_at};
ghost use Rattle.vdcp_journal.specs.Resume.{losses, plan_after};
ghost use Rattle.vdcp_journal.specs.Runs.{last_run};
ghost use Rattle.vdcp_journal.specs.declared.moment.Moment.{Moment};
ghost use Rattle.vdcp_journal.specs.declared.row.Row.{Row};
ghost use Rattle.vdcp_journal_file.specs.Recorded.{WaitsSince};
ghost use Rattle.vdcp_journal_file.specs.Recording.{Recording, rows_left};
ghost use Rattle.vdcp_journal_file.specs.declared.pending.Pending.{Pending};
ghost use Rattle.vdcp_list.specs.Asrun.{asrun_text};
ghost use Rattle.vdcp_laws.specs.AsNew.{AreAnswered};
ghost use Rattle.vdcp_laws.specs.AsrunLaw.{IsOfAired};
ghost use Rattle.vdcp_laws.specs.Carried.{AreCarried, MayGive, driver_of};
ghost use Rattle.vdcp_laws.specs.EndsHeadline.{EndsHeadline};
ghost use Rattle.vdcp_laws.specs.Mended.{AreOfJoined, Finds, IsSession, anew, state_in};
ghost use Rattle.vdcp_laws.specs.OneConnection.{ends_by};
ghost use Rattle.vdcp_laws.specs.Servers.{IsServed};
ghost use Rattle.vdcp_laws.specs.Sessions.{AsksAt, IsHeldOn, acts_tried, asked_at, ends_left, ends_tried, log_tried, questions_at, start_at, state_tried};
ghost use Rattle.vdcp_laws.specs.TwoEnds.{AreJoined, CanJoin, Ends, aired_now, asked_first, bytes_in, connected_anew, log_now, new_ends, port_now};
ghost use Rattle.vdcp_operator.specs.declared.on_list.OnList.{OnList};
ghost use Rattle.vdcp_run.specs.Asking.{AreAsked, Start, over};
ghost use Rattle.vdcp_run.specs.Ends.{Reports};
ghost use Rattle.vdcp_run.specs.Run.{IsAtRest, reported_text};
ghost use Rattle.vdcp_run.specs.Session.{HasTried, TriesOver, onset_of, signs_at_first};
ghost use Rattle.vdcp_run.specs.declared.run_end.RunEnd.{RunEnd};
ghost use Rattle.vdcp_run.specs.declared.run_end.Signs.{Signs};
ghost use Rattle.vdcp_run.specs.declared.settings.RunSettings.{RunSettings};

use crate::killed_runs::a_mended_journal_is_gone_on_with;
use crate::two_ends::{
    a_journal_makes_the_automation, two_ends_are_a_late_channel, untorn_turns_are_at_once,
    what_is_below,
};
use vdcp_drive::{AtOnce, Hearing, ServerHooks};
use vdcp_journal_file::Disk;
use vdcp_port::Catalogue;
use vdcp_wire::Wire;

/// The headline holds of what `vdcp run` does over a connection with an ear that hears at once (`HasTried`, which
/// `play_over` gives with a new ear), its first questions and any number of events held back included, if the wires carry to each
/// end, in order, a beginning of what the other sent by then. The controller is new, or goes on from its journal over a
/// new connection; the server hears at once, or at silences none of which tears a command.
pub fn a_session_keeps_the_headline<C: Catalogue, A: Wire, D: Disk, B: Wire, H: ServerHooks<C>>()
    ensures headline { (plan : Plan) (from : ℕ) (settings : RunSettings) (port : ClockedPort) (asked : List Command) (e : Ends)
        (wire last : A) (recorder : Option (Recording D)) (count : ℕ) (signs : Signs) (list : OnList) (end : RunEnd)
        (turns : List Turn) (below : List Act) (aired : List Item) →
        CanJoin plan port asked → AreJoined plan port asked e → awaited plan e.automation.state ≡ None →
        (tried : HasTried A.does D.safe at_once (record settings { unit = port.state.unit })
        (onset_of (start_at plan from e) e.automation.held (over wire recorder) count signs list) last end) →
        IsServed B.does H.can_act H.does e turns below aired →
        AreCarried port.state.unit e (acts_tried tried) below →
        EndsHeadline plan port.clips (state_tried tried) (log_now e ++ log_tried tried) aired }
    ensures joined { (plan : Plan) (from : ℕ) (settings : RunSettings) (port : ClockedPort) (asked : List Command) (e : Ends)
        (wire last : A) (recorder : Option (Recording D)) (count : ℕ) (signs : Signs) (list : OnList) (end : RunEnd)
        (turns : List Turn) (below : List Act) (aired : List Item) →
        AreJoined plan port asked e → awaited plan e.automation.state ≡ None →
        (tried : HasTried A.does D.safe at_once (record settings { unit = port.state.unit })
        (onset_of (start_at plan from e) e.automation.held (over wire recorder) count signs list) last end) →
        IsServed B.does H.can_act H.does e turns below aired →
        AreCarried port.state.unit e (acts_tried tried) below →
        AreJoined plan port asked (ends_tried tried e (e.downs ++ turns)) }
    // A session that leaves its line at rest, with each command answered, leaves nothing on its way.
    ensures answered { (plan : Plan) (from : ℕ) (settings : RunSettings) (port : ClockedPort) (asked : List Command) (e : Ends)
        (wire last : A) (recorder : Option (Recording D)) (count : ℕ) (signs : Signs) (list : OnList) (end : RunEnd)
        (turns : List Turn) (below : List Act) (aired : List Item) →
        CanJoin plan port asked → AreJoined plan port asked e → AreAnswered e → awaited plan e.automation.state ≡ None →
        (tried : HasTried A.does D.safe at_once (record settings { unit = port.state.unit })
        (onset_of (start_at plan from e) e.automation.held (over wire recorder) count signs list) last end) →
        end.signs.unanswered ≡ false → IsAtRest end.line →
        IsServed B.does H.can_act H.does e turns below aired →
        AreCarried port.state.unit e (acts_tried tried) below → let now : Ends = ends_left tried e (e.downs ++ turns) in
        AreJoined plan port asked now × AreAnswered now }
    // If nothing is on its way, the headline holds of the next one over the same wire, of whatever list, and of what airs then.
    ensures follows { (plan next : Plan) (from : ℕ) (settings : RunSettings) (port : ClockedPort) (asked : List Command) (e : Ends)
        (wire last : A) (recorder : Option (Recording D)) (count : ℕ) (signs : Signs) (list : OnList) (end : RunEnd)
        (turns : List Turn) (below : List Act) (since : List Item) →
        CanJoin plan port asked → AreJoined plan port asked e → AreAnswered e →
        let now : ClockedPort = port_now e in let new : Ends = new_ends now [] in CanJoin next now [] →
        (tried : HasTried A.does D.safe at_once (record settings { unit = now.state.unit })
        (onset_of (start_at next from new) (holds []) (over wire recorder) count signs list) last end) →
        IsServed B.does H.can_act H.does e turns below (aired_now e ++ since) →
        AreCarried now.state.unit e (acts_tried tried) below →
        EndsHeadline next now.clips (state_tried tried) (log_tried tried) since
        × AreJoined next now [] (ends_tried tried new turns) }
    // What it reports is that of the headline.
    ensures reported { (plan : Plan) (from : ℕ) (settings : RunSettings) (e : Ends) (wire last : A) (recorder : Option (Recording D))
        (count : ℕ) (signs : Signs) (list : OnList) (end : RunEnd) → (tried : HasTried A.does D.safe at_once settings
        (onset_of (start_at plan from e) e.automation.held (over wire recorder) count signs list) last end) →
        Reports from (state_tried tried) end }
    // If it began with the first event, the text that is written of what it reports has a row for each item that aired, in
    // order, but for the last at most.
    ensures asrun { (rate : Rate) (plan : Plan) (clips : List (ClipId × Timecode)) (state : State) (log : List Exchange)
        (aired : List Item) (end : RunEnd) → EndsHeadline plan clips state log aired → Reports 0 state end →
        IsOfAired rate plan.list aired end.reported
        × (reported_text rate plan.list 0 end.reported ≡ asrun_text rate plan.list end.reported) }
    ensures given { (settings : RunSettings) (start : Start) (list : OnList) (wire last : A) (recorder : Option (Recording D))
        (end : RunEnd) →
        TriesOver A.does D.safe (record settings { hearing = Hearing.AtOnce }) start list wire last recorder end →
        HasTried A.does D.safe at_once (record settings { hearing = Hearing.AtOnce })
        (onset_of start (holds []) (over wire recorder) settings.listens signs_at_first list) last end }
{
    what_is_below();
    two_ends_are_a_late_channel();
    vdcp_world::laws::a_late_line_keeps_the_headline();
    untorn_turns_are_at_once();
    vdcp_drive::laws::servers_go_on();
    vdcp_drive::laws::what_goes_out_is_answered();
    vdcp_drive::laws::steps_are_exchanges::<AtOnce>();
    vdcp_run::laws::only_questions_are_asked::<AtOnce, A>();
}

/// A session that is killed at any moment, whatever its recorder had written by then, leaves a journal whose rows are safe of
/// joined ends, with the server's port and all that aired; it writes of no loss. So the journal is gone on with
/// (`a_mended_journal_is_gone_on_with`), also if the run is then lost (`a_greater_limit_joins_the_same`).
pub fn a_killed_session_is_safe<C: Catalogue, A: Wire, B: Wire, H: ServerHooks<C>>()
    ensures safe { (plan : Plan) (from : ℕ) (port : ClockedPort) (asked : List Command) (e on last : Ends)
        (events : List Event) (rows : List Kept) (so_far out since : List Act) (turns : List Turn) (below : List Act)
        (aired : List Item) (due before waits : Pending) (first earlier written part rest : List Row) (one : Kept)
        (more : List Kept) →
        CanJoin plan port asked → IsSession plan port asked first due e →
        IsHeldOn A.does plan from port.state.unit e first due on earlier before so_far →
        (asks : AsksAt A.does plan from port.state.unit on) → let now : Ends = asked_at asks in
        let steps : List Step = steps_of at_once plan port.state.unit (driver_of now.automation) events in
        AreMade at_once plan port.state.unit (driver_of now.automation) events →
        MayGive plan port.state.unit (ends_by plan port.state.unit now events) rows out last → sent_in since ≡ [] →
        IsServed B.does H.can_act H.does e turns below aired →
        AreCarried port.state.unit e (so_far ++ (acts_in (questions_at asks) ++ (acts_in steps ++ (out ++ since)))) below →
        kept_in steps ++ rows ≡ one ∷ more → WaitsSince before (one ∷ more) written waits →
        rows_left waits ≡ part ++ rest → let left : List Row = (earlier ++ written) ++ part in
        AreOfJoined plan port asked (port_now (record e { downs = e.downs ++ turns })) aired left
        × (losses left ≡ losses first) }
    // One that asked before it kept anything more, whatever of that went out, is one with the rows that it had then.
    ensures asking { (plan : Plan) (from : ℕ) (port : ClockedPort) (asked questions : List Command) (e on : Ends)
        (so_far acts : List Act) (unsent : List ℕ) (turns : List Turn) (below : List Act) (aired : List Item)
        (due before : Pending) (first earlier : List Row) → IsSession plan port asked first due e →
        IsHeldOn A.does plan from port.state.unit e first due on earlier before so_far →
        AreAsked (start_at plan from on) questions → bytes_of port.state.unit questions ≡ sent_in acts ++ unsent →
        IsServed B.does H.can_act H.does e turns below aired → AreCarried port.state.unit e (so_far ++ acts) below →
        (held : Held) × IsSession plan port asked earlier before
        (record (asked_first questions held (bytes_in (came_in acts)) on) { downs = e.downs ++ turns }) }
    ensures new { (plan : Plan) (port : ClockedPort) → IsSession plan port [] [] Pending.Nothing (new_ends port []) }
    // One that kept nothing begins again, over a new connection.
    ensures again { (plan : Plan) (port found : ClockedPort) (asked : List Command) (rows : List Row) (waits : Pending)
        (e : Ends) → IsSession plan port asked rows waits e → Finds (port_now e) found →
        IsSession plan port asked rows waits (connected_anew plan found e) }
{
    untorn_turns_are_at_once();
    vdcp_drive::laws::servers_go_on();
    vdcp_drive::laws::what_goes_out_is_answered();
    vdcp_drive::laws::steps_are_exchanges::<AtOnce>();
    vdcp_run::laws::only_questions_are_asked::<AtOnce, A>();
    vdcp_journal::laws::an_announced_play_comes_next();
    vdcp_journal::laws::a_thinned_journal_makes_the_same();
    a_journal_makes_the_automation();
}

/// The headline holds over a kill, and over a loss: what aired before it, and what airs since in the session that goes on, are
/// together a beginning of the playlist, and the report lacks one event at most.
pub fn sessions_keep_the_headline<C: Catalogue, A: Wire, D: Disk, B: Wire, H: ServerHooks<C>>()
    ensures { (plan : Plan) (from : ℕ) (settings : RunSettings) (port now found : ClockedPort) (asked : List Command)
        (journal : List Row) (time : Moment) (wire last : A) (recorder : Option (Recording D)) (count : ℕ) (signs : Signs)
        (list : OnList) (end : RunEnd) (turns : List Turn) (below : List Act) (before since : List Item) →
        CanJoin plan port asked → let run : List Row = (last_run journal).rows in
        AreOfJoined (plan_after plan run) port asked now before run → Finds now found →
        let rows : List Row = run ++ rows_at time (mended (plan_after plan run) journal run) in
        let on : Plan = plan_after plan rows in let state : State = state_in on rows in
        (tried : HasTried A.does D.safe at_once (record settings { unit = port.state.unit })
        (onset_of (start_at on from (anew found state)) (holds []) (over wire recorder) count signs list) last end) →
        IsServed B.does H.can_act H.does (anew found state) turns below since →
        AreCarried port.state.unit (anew found state) (acts_tried tried) below → (log : List Exchange) ×
        EndsHeadline on port.clips (state_tried tried) (log ++ log_tried tried) (before ++ since) }
{
    a_mended_journal_is_gone_on_with();
    a_session_keeps_the_headline::<C, A, D, B, H>();
}

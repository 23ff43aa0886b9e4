//! The law of what `vdcp run` does over a connection without `--prompt`.
ghost use Rattle.std.specs.Prelude.{ℕ, ◌≡◌, ◌++◌, [], List, None, Option, map};
ghost use Rattle.vdcp_value.specs.declared.part.Item.{Item};
ghost use Rattle.vdcp_words.specs.declared.command.Command.{Command};
ghost use Rattle.vdcp_port.specs.Clock.{ClockedPort};
ghost use Rattle.vdcp_auto.specs.Plan.{Plan};
ghost use Rattle.vdcp_auto.specs.Turn.{awaited};
ghost use Rattle.vdcp_wire.specs.Acts.{Act};
ghost use Rattle.vdcp_drive.specs.Hearing.{at_silences, begun};
ghost use Rattle.vdcp_drive.specs.Reading.{holds};
ghost use Rattle.vdcp_drive.specs.Turns.{Turn};
ghost use Rattle.vdcp_journal_file.specs.Recorded.{note_for};
ghost use Rattle.vdcp_journal_file.specs.Recording.{Recording};
ghost use Rattle.vdcp_laws.specs.Bursts.{AreHeardAs, AreLeft};
ghost use Rattle.vdcp_laws.specs.Carried.{AreCarried};
ghost use Rattle.vdcp_laws.specs.EndsHeadline.{EndsHeadline};
ghost use Rattle.vdcp_laws.specs.Servers.{IsServed};
ghost use Rattle.vdcp_laws.specs.Sessions.{acts_tried, kept_tried, log_tried, start_at, state_tried};
ghost use Rattle.vdcp_laws.specs.TwoEnds.{AreJoined, CanJoin, Ends, log_now, port_now};
ghost use Rattle.vdcp_operator.specs.declared.on_list.OnList.{OnList};
ghost use Rattle.vdcp_run.specs.Asking.{Start, over};
ghost use Rattle.vdcp_run.specs.Ends.{Reports};
ghost use Rattle.vdcp_run.specs.Session.{HasTried, TriesOver, onset_of, signs_at_first};
ghost use Rattle.vdcp_run.specs.declared.run_end.RunEnd.{RunEnd};
ghost use Rattle.vdcp_run.specs.declared.run_end.Signs.{Signs};
ghost use Rattle.vdcp_run.specs.declared.settings.RunSettings.{RunSettings};

use crate::two_ends::{two_ends_are_a_late_channel, untorn_turns_are_at_once, what_is_below};
use vdcp_drive::{AtSilences, Hearing, ServerHooks};
use vdcp_journal_file::Disk;
use vdcp_port::Catalogue;
use vdcp_wire::Wire;

/// The headline holds of what `vdcp run` does over a connection with an ear that hears at silences (`HasTried`, which
/// `play_over` gives with a new ear), beside either server, if what its wire does is as of one that hears at once
/// (`AreHeardAs`), and that is carried: a late answer may be heard for another command, or dropped. The controller is new, or
/// goes on from its journal over a new connection.
pub fn a_session_at_silences_keeps_the_headline<
    C: Catalogue,
    A: Wire,
    D: Disk,
    B: Wire,
    H: ServerHooks<C>,
>()
    ensures headline { (plan : Plan) (from : ℕ) (settings : RunSettings) (port : ClockedPort) (asked : List Command) (e : Ends)
        (wire last : A) (recorder : Option (Recording D)) (count : ℕ) (signs : Signs) (list : OnList) (end : RunEnd) (left : List ℕ)
        (same : List Act) (turns : List Turn) (below : List Act) (aired : List Item) →
        CanJoin plan port asked → AreJoined plan port asked e → awaited plan e.automation.state ≡ None →
        e.automation.held ≡ holds [] → (tried : HasTried A.does D.safe at_silences (record settings { unit = port.state.unit })
        (onset_of (start_at plan from e) (begun (holds [])) (over wire recorder) count signs list) last end) →
        AreHeardAs plan.mode [] left (acts_tried tried) same → IsServed B.does H.can_act H.does e turns below aired →
        AreCarried port.state.unit e same below →
        EndsHeadline plan port.clips (state_tried tried) (log_now e ++ log_tried tried) aired }
    ensures joined { (plan : Plan) (from : ℕ) (settings : RunSettings) (port : ClockedPort) (asked : List Command) (e : Ends)
        (wire last : A) (recorder : Option (Recording D)) (count : ℕ) (signs : Signs) (list : OnList) (end : RunEnd) (left : List ℕ)
        (same : List Act) (turns : List Turn) (below : List Act) (aired : List Item) →
        AreJoined plan port asked e → awaited plan e.automation.state ≡ None →
        e.automation.held ≡ holds [] → (tried : HasTried A.does D.safe at_silences (record settings { unit = port.state.unit })
        (onset_of (start_at plan from e) (begun (holds [])) (over wire recorder) count signs list) last end) →
        AreHeardAs plan.mode [] left (acts_tried tried) same → IsServed B.does H.can_act H.does e turns below aired →
        AreCarried port.state.unit e same below →
        AreLeft plan port asked (port_now (record e { downs = e.downs ++ turns })) aired (state_tried tried)
        (log_now e ++ log_tried tried) (e.notes ++ map note_for (kept_tried tried)) }
    // What it reports is that of the headline.
    ensures reported { (plan : Plan) (from : ℕ) (settings : RunSettings) (e : Ends) (wire last : A) (recorder : Option (Recording D))
        (count : ℕ) (signs : Signs) (list : OnList) (end : RunEnd) → (tried : HasTried A.does D.safe at_silences settings
        (onset_of (start_at plan from e) (begun (holds [])) (over wire recorder) count signs list) last end) →
        Reports from (state_tried tried) end }
    ensures given { (settings : RunSettings) (start : Start) (list : OnList) (wire last : A) (recorder : Option (Recording D))
        (end : RunEnd) →
        TriesOver A.does D.safe (record settings { hearing = Hearing.AtSilences }) start list wire last recorder end →
        HasTried A.does D.safe at_silences (record settings { hearing = Hearing.AtSilences })
        (onset_of start (begun (holds [])) (over wire recorder) settings.listens signs_at_first list) last end }
{
    what_is_below();
    two_ends_are_a_late_channel();
    vdcp_world::laws::a_late_line_keeps_the_headline();
    untorn_turns_are_at_once();
    vdcp_drive::laws::servers_go_on();
    vdcp_drive::laws::what_goes_out_is_answered();
    vdcp_drive::laws::steps_are_exchanges::<AtSilences>();
    vdcp_run::laws::only_questions_are_asked::<AtSilences, A>();
}

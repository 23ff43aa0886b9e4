//! The laws of a line that holds one burst each way, and of one that keeps order, however late. `docs/PROOFS.md` has them
//! in words, with their premises. The functions do nothing: a caller whose proof needs a law calls its function.
ghost use Rattle.std.specs.Prelude.{ℕ, ◌≡◌, ◌≤◌, ◌<◌, All, IfSome, IsTrue, List, [], bit_and};
ghost use Rattle.vdcp_value.specs.Parts.{IsItem};
ghost use Rattle.vdcp_port.specs.Clips.{is_playable};
ghost use Rattle.vdcp_port.specs.Clock.{ClockedPort};
ghost use Rattle.vdcp_port.specs.Port.{empty, state_byte};
ghost use Rattle.vdcp_auto.specs.Plan.{Plan};
ghost use Rattle.vdcp_auto.specs.Turn.{outcome_of};
ghost use Rattle.vdcp_auto.specs.declared.phase.Mode.TheVariants.{Confirming};
ghost use Rattle.vdcp_world.specs.AnyPort.{CanRun};
ghost use Rattle.vdcp_world.specs.AtEnd.{LeavesPort};
ghost use Rattle.vdcp_world.specs.Below.{Below};
ghost use Rattle.vdcp_world.specs.BoundedEnd.{BoundedEnd};
ghost use Rattle.vdcp_world.specs.Channel.{Channel, IsReached, after_event, after_events, channel_to};
ghost use Rattle.vdcp_world.specs.Headline.{Headline};
ghost use Rattle.vdcp_world.specs.InStep.{InStepEnd};
ghost use Rattle.vdcp_world.specs.InTime.{HasOneWay, IsNoStop, LosesNone, PlaysOn};
ghost use Rattle.vdcp_world.specs.LateLine.GoingOn.{IsNoTick, gone_on};
ghost use Rattle.vdcp_world.specs.LateLine.Joined.{late_of};
ghost use Rattle.vdcp_world.specs.LateLine.LateChannel.{CanStart, LateChannel, IsLateReached, after_late_events, late_make_of, new_late_channel};
ghost use Rattle.vdcp_world.specs.LateLine.LateEvent.{LateEvent};
ghost use Rattle.vdcp_world.specs.LateLine.LateHeadline.{LateHeadline};
ghost use Rattle.vdcp_world.specs.Losses.{IsGivenUp, losing, losses};
ghost use Rattle.vdcp_world.specs.NoCut.{CutsUnasked, NoCut};
ghost use Rattle.vdcp_world.specs.declared.event.Event.{Event};

/// Whatever events led here from a new channel, the headline holds: what went to air is a beginning of the playlist, each
/// event once and in order; what is reported is that, or one event less; and each outcome means what `Means` says.
pub fn reached_keeps_the_headline()
    ensures { (c : Channel) → IsReached c → Headline c }
{
    crates_below();
}

/// The same from a port in any state; in plain mode something may be cued if the list has an event.
pub fn any_port_keeps_the_headline()
    ensures { (plan : Plan) (port : ClockedPort) (events : List Event) → CanRun plan port →
        Headline (after_events (channel_to plan port) events) }
{
    crates_below();
}

/// If the list is playable, enough good rounds bring all of it to air and the controller to Done: in plain mode if nothing
/// is awaited, it hasn't ended, and no stop is wished for or was sent; in confirm mode from a new channel.
pub fn good_rounds_bring_all_to_air()
    ensures { (c : Channel) → IsReached c → BoundedEnd c }
{
    crates_below();
}

/// The same in confirm mode from a channel that is in step (`GoesInStep`) or can catch up (`CanCatchUp`).
pub fn good_rounds_bring_the_rest_to_air()
    ensures { (c : Channel) → IsReached c → InStepEnd c }
{
    crates_below();
}

/// Where nothing was lost, copied, damaged or forged, at most one way has something, and a playable list that isn't stopped
/// has aired whole after as many exchanges as `PlaysOn` says.
pub fn what_loses_nothing_plays_the_list()
    ensures line { (plan : Plan) (port : ClockedPort) (events : List Event) → All LosesNone events →
        HasOneWay (after_events (channel_to plan port) events) }
    ensures plays { (plan : Plan) (port : ClockedPort) (events : List Event) → CanRun plan port →
        All LosesNone events → All IsNoStop events →
        All (λ item. IsTrue (is_playable port.clips item)) plan.list →
        (c : Channel) → c ≡ after_events (channel_to plan port) events → PlaysOn plan c.state c.aired c.log 0 }
{
    crates_below();
}

/// Where anything is lost, copied, damaged or forged, a playable list that isn't stopped comes to Done, unless it is given up:
/// `limit` exchanges in a row (in confirm mode, requests) are unanswered, or in confirm mode an event's cue is lost `limit`
/// times. An exchange that shows a loss takes two more at most.
pub fn what_loses_little_plays_the_list()
    ensures plays { (plan : Plan) (port : ClockedPort) (events : List Event) → CanRun plan port → All IsNoStop events →
        All (λ item. IsTrue (is_playable port.clips item)) plan.list →
        (c : Channel) → c ≡ after_events (channel_to plan port) events → ¬ IsGivenUp plan c.log →
        PlaysOn plan c.state c.aired c.log (losses plan.mode c.log) }
    // Each event that loses anything makes one exchange show a loss, at most.
    ensures losses { (plan : Plan) (port : ClockedPort) (events : List Event) → CanRun plan port → All IsNoStop events →
        All (λ item. IsTrue (is_playable port.clips item)) plan.list →
        losses plan.mode (after_events (channel_to plan port) events).log ≤ losing events }
{
    crates_below();
}

/// In plain mode Done and Stopped leave the port closed and both slots empty; in confirm mode Done leaves them empty.
pub fn an_end_leaves_the_port_at_rest()
    ensures { (c : Channel) → IsReached c → IfSome (outcome_of c.state.stage) (LeavesPort c.plan.mode c.port.state) }
{
    crates_below();
}

/// A PLAY cuts short a clip that is on air only if the operator took since the PLAY that aired the clip went out last.
pub fn no_cut_without_a_take()
    ensures reached { (c : Channel) → IsReached c → NoCut c }
    // From any port on it does so only if the operator took.
    ensures any_port { (plan : Plan) (port : ClockedPort) (events : List Event) (e : Event) → CanRun plan port →
        ¬ CutsUnasked (channel_to plan port) events e }
{
    crates_below();
}

/// The headline also holds on a line that keeps order, however late, with ends that are restarted. There a stale or forged
/// answer may end a run Denied, Strange(k), Foreign(k) or Refused(k). A run that isn't stopped has ended after as many
/// exchanges as `most_exchanges` says.
pub fn a_late_line_keeps_the_headline()
    ensures { (c : LateChannel) → IsLateReached c → LateHeadline c }
{
    crates_below();
}

/// The same after whatever events from a start, none of which changes what the channel was made with. In confirm mode a
/// start has an empty cued slot: bits 1 and 7 of the state byte are off.
pub fn a_late_run_keeps_the_headline()
    ensures headline { (plan : Plan) (port : ClockedPort) (down up : List (List ℕ)) (events : List LateEvent) →
        CanStart plan port down up → LateHeadline (after_late_events (new_late_channel plan port down up) events) }
    ensures make { (c : LateChannel) (events : List LateEvent) →
        late_make_of (after_late_events c events) ≡ late_make_of c }
    ensures start { (plan : Plan) (port : ClockedPort) → 1 ≤ plan.limit → plan.limit ≤ 1000 →
        port.state.unit ≤ 15 → plan.port < 256 → All IsItem plan.list →
        (plan.mode ≡ Confirming → bit_and (state_byte port.state) 0x82 ≡ 0) → CanStart plan port [] [] }
{
    a_late_line_keeps_the_headline();
}

/// What happens on a line of one burst each way can happen on one that keeps order: each event is some of the other's.
pub fn a_line_of_one_burst_keeps_order()
    ensures event { (c : Channel) (e : Event) →
        (events : List LateEvent) × (after_late_events (late_of c) events ≡ late_of (after_event c e)) }
    ensures reached { (c : Channel) → IsReached c → IsLateReached (late_of c) }
{}

/// An automation that is killed and goes on from what was kept did nothing that the line couldn't have done, if it has
/// given no command since: what it heard since was lost on its way, and then a time-out came.
pub fn a_killed_automation_goes_on()
    ensures reached { (c : LateChannel) (events : List LateEvent) → IsLateReached c → All IsNoTick events →
        IsLateReached (gone_on c (after_late_events c events)) }
    ensures event { (c : LateChannel) (events : List LateEvent) → IsLateReached c →
        IsLateReached (after_late_events c events) }
{}

pub(crate) fn crates_below()
    ensures { Below }
{
    vdcp_frame::laws::a_spelling_is_its_message();
    vdcp_words::laws::command_is_read_first();
    vdcp_words::laws::reply_is_read_first();
    vdcp_words::laws::written_reply_is_read();
    vdcp_port::laws::a_command_has_its_own_row();
    vdcp_port::laws::a_command_is_answered();
    vdcp_port::laws::a_burst_without_a_message();
    vdcp_port::laws::a_burst_with_one_message();
    vdcp_port::laws::the_unit_stays();
    vdcp_auto::laws::commands_can_be_written();
    vdcp_auto::laws::a_receipt_confirms_nothing();
    vdcp_auto::laws::reached_is_lawful();
    vdcp_auto::laws::a_log_grows();
}

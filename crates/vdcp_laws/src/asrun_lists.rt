//! The laws of as-run lists: what is written for a run, beside what went to air.
ghost use Rattle.std.specs.Prelude.{IfSome, IsTrue};
ghost use Rattle.vdcp_auto.specs.Turn.{outcome_of};
ghost use Rattle.vdcp_world.specs.LateLine.LateChannel.{LateChannel, IsLateReached};
ghost use Rattle.vdcp_world.specs.LateLine.LateHeadline.{is_late_complete};
ghost use Rattle.vdcp_laws.specs.AsrunLaw.{IsOfAired, IsOfAllAired};
ghost use Rattle.vdcp_value.specs.declared.rate.Rate.{Rate};
ghost use Rattle.vdcp_world.specs.Channel.{Channel, IsReached};
ghost use Rattle.vdcp_world.specs.Headline.{is_complete};

/// On a line that holds one burst each way the as-run list (`vdcp_list::write_asrun`) of what is reported has a row for
/// each item that aired, in order, but for the last at most; after Done, Missing or Refused it has one for each.
pub fn an_asrun_list_is_of_what_aired()
    ensures but_one { (rate : Rate) (c : Channel) → IsReached c →
        IsOfAired rate c.plan.list c.aired c.state.settled }
    ensures complete { (rate : Rate) (c : Channel) → IsReached c → IfSome (outcome_of c.state.stage)
        (λ outcome. IsTrue (is_complete outcome) → IsOfAllAired rate c.plan.list c.aired c.state.settled) }
{
    vdcp_world::laws::reached_keeps_the_headline();
}

/// The same of a line that keeps order, however late, and of ends that are started anew; but in plain mode, after a stale
/// refusal, an event may have aired that isn't reported.
pub fn an_asrun_list_of_a_late_line_is_of_what_aired()
    ensures but_one { (rate : Rate) (c : LateChannel) → IsLateReached c →
        IsOfAired rate c.plan.list c.aired c.state.settled }
    ensures complete { (rate : Rate) (c : LateChannel) → IsLateReached c → IfSome (outcome_of c.state.stage)
        (λ outcome. IsTrue (is_late_complete c.plan.mode outcome) →
        IsOfAllAired rate c.plan.list c.aired c.state.settled) }
{
    vdcp_world::laws::a_late_line_keeps_the_headline();
}

//! The law of what `vdcp lossy` does with a burst: it is events of a line.
ghost use Rattle.std.specs.Prelude.{◌≡◌};
ghost use Rattle.vdcp_frame.specs.Message.{AreOctets};
ghost use Rattle.vdcp_lossy.specs.Doings.{CanBe, goes_on};
ghost use Rattle.vdcp_laws.specs.LossyEvents.{CanGoUp, answering, events_down, events_up, hearing_joined};
ghost use Rattle.vdcp_lossy.specs.declared.doing.Doing.{Doing};
ghost use Rattle.vdcp_auto.specs.declared.burst.Way.TheVariants as way;
ghost use Rattle.vdcp_world.specs.Channel.{Channel, after_events};

/// What `lossy` does is events of a `Channel`, a forged receipt in confirm mode alone: on the way down the port is left as
/// by the bursts that go on, with the answer to the last; on the way up what goes on is heard as one burst.
pub fn what_is_done_is_events()
    ensures down { (c : Channel) (doing : Doing) → CanBe way.Down c.down doing →
        after_events c (events_down doing c.down) ≡ answering c (goes_on doing c.down) }
    ensures up { (c : Channel) (doing : Doing) → AreOctets c.up → CanGoUp c doing →
        after_events c (events_up doing c.up) ≡ hearing_joined c (goes_on doing c.up) }
{
    vdcp_frame::laws::one_reading();
    vdcp_frame::laws::what_is_spelt_is_bytes();
    vdcp_frame::laws::written_is_read();
}

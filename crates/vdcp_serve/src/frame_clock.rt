//! The frames that pass by the clock.
ghost use Rattle.std.specs.Prelude.{◌≡◌, ◌≤◌, ◌-◌, false, true};
ghost use Rattle.vdcp_serve.specs.Timing.{counted, is_frame_over};
ghost use Rattle.vdcp_value.specs.Clock.{frames_after};

use vdcp_value::Rate;

#[derive(Clone, Copy)]
pub struct FrameClock {
    rate: Rate,
    // In nanoseconds.
    began: u64,
    frames: u128,
}

impl FrameClock {
    pub fn new(rate: Rate, began: u64) -> Self
        ensures { result ≡ record { rate = rate; began = began; frames = 0 } }
    {
        FrameClock {
            rate,
            began,
            frames: 0,
        }
    }

    /// Counts one frame if the clock is ahead of the count, and says whether it did.
    pub fn count(&mut self, now: u64) -> bool
        ensures over { result ≡ is_frame_over now self.old }
        ensures counts { self.new ≡ counted result self.old }
        ensures never_ahead { result ≡ true → self.new.frames ≤ frames_after self.new.rate (now - self.new.began) }
        ensures none_over { result ≡ false → frames_after self.new.rate (now - self.new.began) ≤ self.new.frames }
    {
        if self.rate.frames_after(now.saturating_sub(self.began)) <= self.frames {
            return false;
        }
        self.frames += 1;
        true
    }
}

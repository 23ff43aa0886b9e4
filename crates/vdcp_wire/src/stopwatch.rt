//! A clock that neither fails nor goes back.
ghost use Rattle.std.specs.Prelude.{◌≡◌, ◌+◌, ◌-◌, ◌^◌, ◌≤◌, min};

use std::rt::Clock;
use std::time::Duration;

/// A clock in nanoseconds that never goes back. One that can't be read stands still.
#[derive(Drop)]
pub struct Stopwatch<C: Clock> {
    clock: C,
    /// The time when it was read last, or up to which it slept since.
    pub now: u64,
}

impl<C: Clock> Stopwatch<C> {
    pub fn new(clock: C) -> Self
        ensures { result.now ≡ 0 }
    {
        Stopwatch { clock, now: 0 }
    }

    pub fn read(&mut self) -> u64
        ensures now { result ≡ self.new.now }
        ensures later { self.old.now ≤ self.new.now }
        ensures clock { self.new ≡ record self.old { now = self.new.now } }
    {
        if let Ok(time) = self.clock.monotonic() {
            let nanoseconds = u64::try_from(time.as_nanos()).unwrap_or(u64::MAX);
            self.now = self.now.max(nanoseconds);
        }
        self.now
    }

    /// Sleeps, and is that much later then, also if the clock stands still.
    pub fn sleep(&mut self, nanoseconds: u64)
        ensures { self.new ≡ record self.old { now = min (self.old.now + nanoseconds) (2 ^ 64 - 1) } }
    {
        self.clock.sleep(Duration::from_nanos(nanoseconds));
        self.now = self.now.saturating_add(nanoseconds);
    }

    pub fn sleep_until(&mut self, time: u64)
        ensures over { time ≤ self.new.now }
        ensures later { self.old.now ≤ self.new.now }
        ensures clock { self.new ≡ record self.old { now = self.new.now } }
    {
        let left = time.saturating_sub(self.read());
        if left > 0 {
            self.sleep(left);
        }
    }
}

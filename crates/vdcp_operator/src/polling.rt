//! How soon the state is asked again.
ghost use Rattle.std.specs.Prelude.{◌≡◌, ◌≤◌, ◌*◌, ◌↔◌, IsTrue, None, Some, ℕ};
ghost use Rattle.vdcp_words.specs.declared.command.Command.{Command};

use std::rt::Clock;
use vdcp_wire::Stopwatch;

#[derive(Drop)]
pub struct Polling<'a, R: Clock> {
    stopwatch: Stopwatch<&'a R>,
    // The least time from one STATUS to the next, and when the next may go out, in nanoseconds.
    least: u64,
    due: u64,
}

impl<'a, R: Clock> Polling<'a, R> {
    ghost use Rattle.vdcp_operator.specs.Polls.{Paces};

    /// From one STATUS to the next at least `poll` milliseconds pass.
    pub fn new(clock: &'a R, poll: u32) -> Self
        ensures least { result.least ≡ poll * 1000000 }
        ensures due { result.due ≡ 0 }
    {
        Polling {
            stopwatch: Stopwatch::new(clock),
            least: u64::from(poll) * 1_000_000,
            due: 0,
        }
    }

    pub fn never_waits(&self) -> bool
        ensures { IsTrue result ↔ self.now.least ≡ 0 }
    {
        self.least == 0
    }

    pub fn hurry(&mut self)
        ensures { self.new ≡ record self.old { due = 0 } }
    {
        self.due = 0;
    }

    /// Waits for `most` nanoseconds at most, and answers whether a STATUS may go out.
    pub fn wait_piece(&mut self, most: u64) -> bool
        ensures over { IsTrue result → self.old.due ≤ self.new.stopwatch.now }
        ensures paces { Paces None self.old self.new }
    {
        if self.due == 0 {
            return true;
        }
        let left = self.due.saturating_sub(self.stopwatch.read());
        if left > 0 {
            self.stopwatch.sleep(left.min(most));
        }
        left == 0
    }

    /// Waits until a STATUS may go out, and counts it as sent.
    pub fn wait(&mut self)
        ensures { (groups : ℕ) → Paces (Some (Command.Status groups)) self.old self.new }
    {
        if self.least > 0 {
            self.stopwatch.sleep_until(self.due);
            self.due = self.stopwatch.read().saturating_add(self.least);
        }
    }
}

//! How long an answer may go on.
ghost use Rattle.std.specs.Duration.{as_nanos};
ghost use Rattle.std.specs.Prelude.{◌≡◌, ◌≤◌, ◌^◌, ◌-◌, min};
ghost use Rattle.vdcp_wire.specs.Answers.{goes_on_for, since_with};

use crate::stopwatch::Stopwatch;
use crate::wire::Came;
use std::rt::Clock;
use std::time::Duration;

/// What has come since a command went out, and since the last silence.
#[derive(Clone, Copy)]
enum Since {
    Nothing,
    Bytes,
}

/// Says when an answer has gone on for too long: bytes that still come then don't count.
#[derive(Drop)]
pub struct Answering<C: Clock> {
    stopwatch: Stopwatch<C>,
    // In nanoseconds, as all times.
    most: u64,
    // When the last command went out.
    sent: u64,
    since: Since,
}

impl<C: Clock> Answering<C> {
    pub fn new(clock: C, most: Duration) -> Self
        ensures most { result.most ≡ min (as_nanos most) (2 ^ 64 - 1) }
        ensures since { result.since ≡ Since.Nothing }
    {
        Answering {
            stopwatch: Stopwatch::new(clock),
            most: u64::try_from(most.as_nanos()).unwrap_or(u64::MAX),
            sent: 0,
            since: Since::Nothing,
        }
    }

    pub fn note_sent(&mut self)
        ensures sent { self.new.sent ≡ self.new.stopwatch.now }
        ensures keeps { self.new ≡ record self.old { stopwatch = self.new.stopwatch; sent = self.new.sent; since = Since.Nothing } }
    {
        self.sent = self.stopwatch.read();
        self.since = Since::Nothing;
    }

    /// While nothing has come the clock isn't read.
    pub fn is_over(&mut self) -> bool
        ensures over { result ≡ goes_on_for self.old.since self.old.most (self.new.stopwatch.now - self.old.sent) }
        ensures keeps { self.new ≡ record self.old { stopwatch = self.new.stopwatch } }
    {
        match self.since {
            Since::Nothing => false,
            Since::Bytes => self.most <= self.stopwatch.read().saturating_sub(self.sent),
        }
    }

    pub fn note(&mut self, came: Came)
        ensures { self.new ≡ record self.old { since = since_with came self.old.since } }
    {
        self.since = match came {
            Came::Silence => Since::Nothing,
            Came::Bytes(0) | Came::Closed => self.since,
            Came::Bytes(_) => Since::Bytes,
        };
    }
}

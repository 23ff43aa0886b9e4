//! When a frame passes on a line, and when a line is given up.
ghost use Rattle.std.specs.Prelude.{◌≡◌, ◌≤◌, false};
ghost use Rattle.vdcp_serve.specs.Timing.{after_turn, begun_anew, frames_of, is_too_long, with_next_line, WasAsked, WasTold, LineBegins};

use crate::frame_clock::FrameClock;
use crate::serve::ServeSettings;
use std::rt::Clock;
use vdcp_drive::{DriveFault, Due, Turned};
use vdcp_wire::{Came, Stopwatch};

/// A line is given up once nothing has come for too long and a listen that began then was in vain: so what waits is read
/// before.
#[derive(Clone, Copy)]
pub struct Patience {
    seconds: Option<u32>,
    // In nanoseconds: when something came last.
    heard: u64,
    gives_up: bool,
}

impl Patience {
    // If the line before was given up, the next one has waited all the while, and nothing came from it either.
    fn with_next_line(self, seconds: Option<u32>, now: u64) -> Patience
        ensures { result ≡ with_next_line seconds now self }
    {
        Patience {
            seconds,
            heard: if self.gives_up { self.heard } else { now },
            gives_up: false,
        }
    }

    fn after_turn(self, turned: Result<Turned, DriveFault>, began: u64, ended: u64) -> Patience
        ensures { result ≡ after_turn turned began ended self }
    {
        match turned {
            Ok(Turned::Listen(Came::Bytes(0) | Came::Silence)) => Patience {
                gives_up: self.is_too_long(began),
                ..self
            },
            Ok(Turned::Listen(Came::Bytes(_))) => Patience {
                heard: ended,
                ..self
            },
            Ok(Turned::Listen(Came::Closed) | Turned::Frame) | Err(_) => self,
        }
    }

    fn is_too_long(self, time: u64) -> bool
        ensures { result ≡ is_too_long time self }
    {
        match self.seconds {
            Some(seconds) => u64::from(seconds) * 1_000_000_000 <= time.saturating_sub(self.heard),
            None => false,
        }
    }
}

#[derive(Drop)]
pub struct Timing<'a, R: Clock> {
    stopwatch: Stopwatch<&'a R>,
    // None if frames pass at silences.
    frames: Option<FrameClock>,
    patience: Patience,
    turns: u64,
}

impl<'a, R: Clock> Timing<'a, R> {
    pub fn new(clock: &'a R) -> Self
        ensures { result.patience.gives_up ≡ false }
    {
        Timing {
            stopwatch: Stopwatch::new(clock),
            frames: None,
            patience: Patience {
                seconds: None,
                heard: 0,
                gives_up: false,
            },
            turns: 0,
        }
    }

    pub fn begin_line(&mut self, settings: ServeSettings)
        ensures { LineBegins settings self.old self.new }
    {
        let now = self.stopwatch.read();
        self.frames = frames_of(settings, now);
        self.patience = self.patience.with_next_line(settings.idle, now);
        self.turns = 0;
    }

    /// No line was waiting while the last one was idle.
    pub fn miss_line(&mut self)
        ensures { self.new ≡ begun_anew self.old }
    {
        self.patience.gives_up = false;
    }

    pub fn turns(&self) -> u64
        ensures { result ≡ self.now.turns }
    {
        self.turns
    }

    // It is read only if something goes by it.
    fn now(&mut self) -> u64
        ensures time { result ≡ self.new.stopwatch.now }
        ensures later { self.old.stopwatch.now ≤ self.new.stopwatch.now }
        ensures keeps { self.new ≡ record self.old { stopwatch = self.new.stopwatch } }
    {
        if self.frames.is_none() && self.patience.seconds.is_none() {
            return self.stopwatch.now;
        }
        self.stopwatch.read()
    }

    pub fn due(&mut self) -> Due
        ensures { WasAsked result self.old self.new }
    {
        let now = self.now();
        self.turns = self.turns.saturating_add(1);
        if self.patience.gives_up {
            return Due::GiveUp;
        }
        if let Some(frames) = &mut self.frames
            && frames.count(now)
        {
            return Due::Frame;
        }
        Due::Listen
    }

    pub fn note(&mut self, turned: Result<Turned, DriveFault>)
        ensures { WasTold turned self.old self.new }
    {
        let began = self.stopwatch.now;
        let ended = self.now();
        self.patience = self.patience.after_turn(turned, began, ended);
    }
}

fn frames_of(settings: ServeSettings, now: u64) -> Option<FrameClock>
    ensures { result ≡ frames_of settings now }
{
    if settings.by_clock {
        Some(FrameClock::new(settings.rate, now))
    } else {
        None
    }
}

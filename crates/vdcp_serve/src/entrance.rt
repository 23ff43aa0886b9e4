//! How one connection after another is taken, and made a line.
ghost use Rattle.std.specs.Duration.{as_nanos};
ghost use Rattle.std.specs.Prelude.{◌≡◌, ◌*◌, false, true, unwrap_or, IfErr, IfOk, IsTrue};
ghost use Rattle.vdcp_serve.specs.Serve.{IsTaken, reads_of};
ghost use Rattle.vdcp_serve.specs.Stay.{IfLine, IsPause};
ghost use Rattle.vdcp_wire.specs.Streams.{failures_of};

use crate::serve::{ServeSettings, word_of};
use crate::stay::{Coming, Connections, hearing_of};
use mio::unix::SourceFd;
use mio::{Events, Interest, Poll, Token};
use std::alloc::Global;
use std::io;
use std::net::{Net, OpenListener};
use std::os::fd::AsRawFd;
use std::rt::Clock;
use std::time::Duration;
use vdcp_drive::{DriveFault, TurnsEnd};
use vdcp_log::{Log, Logged};
use vdcp_text::Failure;
use vdcp_wire::{Duplex, StreamWire, Waits, WireFault};

// How many milliseconds a listen waits if frames pass by the clock.
const TICK: u32 = 5;

// How many seconds a send waits for an end that takes nothing, if the settings don't say how long a line may be idle.
const SENDING: u32 = 10;

/// Listens at an address and takes one connection after another; the system has the others wait.
#[derive(Drop)]
pub struct Entrance<'a, R: Net, L: io::Write> {
    listener: R::Listener,
    poll: Poll,
    events: Events<Global>,
    settings: ServeSettings,
    // How long a wait for a connection is.
    pause: Duration,
    log: &'a Log<L>,
    // Whether the system refuses to wait.
    is_refused: bool,
}

impl<'a, R: Net + AllocGlobal, L: io::Write + Drop> Entrance<'a, R, L> {
    /// The log is told of each connection and of its end.
    pub fn new(
        rt: &R,
        listener: R::Listener,
        settings: ServeSettings,
        log: &'a Log<L>,
    ) -> io::Result<Self>
        ensures pause { IfOk result (λ entrance. IsPause settings (as_nanos entrance.pause)) }
        ensures settings { IfOk result (λ entrance. entrance.settings ≡ settings) }
    {
        listener.set_nonblocking(true)?;
        let poll = Poll::new(rt)?;
        let events = Events::with_capacity(rt.alloc(), 1)?;
        let descriptor = listener.as_raw_fd();
        poll.registry()
            .register(&mut SourceFd(&descriptor), Token(0), Interest::READABLE)?;
        Ok(Entrance {
            listener,
            poll,
            events,
            settings,
            pause: pause_of(settings),
            log,
            is_refused: false,
        })
    }

    fn pause(&mut self) -> Result<(), WireFault>
        ensures refused { IfErr result (λ _. IsTrue self.new.is_refused) }
        ensures settings { self.new.settings ≡ self.old.settings }
    {
        // (what came is told once, so that one that can't be taken doesn't cut the wait short again)
        self.is_refused = self.poll.poll(&mut self.events, Some(self.pause)).is_err();
        if self.is_refused {
            return Err(WireFault);
        }
        Ok(())
    }
}

impl<'a, R: Net + AllocGlobal, L: io::Write + Drop> Connections<
    Logged<'a, StreamWire<R::Stream>, L>,
> for Entrance<'a, R, L>
where
    R::Stream: Duplex,
{
    ghost use Rattle.vdcp_serve.specs.Serve.{IsTaken};

    ghost made_with = { λ entrance. entrance.settings };

    ghost is_line = { IsTaken R.Stream.ahead R.Stream.written };

    fn wait(&mut self) -> Result<Coming<Logged<'a, StreamWire<R::Stream>, L>>, WireFault>
        ensures works { IfOk result (λ coming. IfLine coming (λ line. failures_of line.wire.connection ≡ 0)) }
        ensures comes { IfOk result (λ coming. IfLine coming (IsTaken R.Stream.ahead R.Stream.written self.old.settings)) }
        ensures keeps { self.new.settings ≡ self.old.settings }
        ensures refused { IfErr result (λ _. IsTrue self.new.is_refused) }
    {
        // (if none can be taken now, none has come)
        let mut taken = self.listener.accept().ok();
        if taken.is_none() {
            self.pause()?;
            taken = self.listener.accept().ok();
        }
        let Some((stream, from)) = taken else {
            return Ok(Coming::Nobody);
        };
        match line_over(stream, self.settings, self.log) {
            Ok(line) => {
                self.log.tell(&"taken");
                Ok(Coming::Line(line, from))
            }
            Err(_) => Ok(Coming::Failed),
        }
    }

    fn tell_end(&mut self, end: Result<TurnsEnd, DriveFault>) {
        match end {
            Ok(TurnsEnd::Spent) => {}
            Ok(end) => self.log.tell(&word_of(end)),
            Err(DriveFault::Device) => {
                let failure = Failure::LineFailed;
                self.log.tell_fault(&format_args!("vdcp: {failure}"));
            }
        }
    }
}

/// The line over a connection, which tells a log what passes. It fails if the connection refuses to be one.
pub fn line_over<S: Duplex + Drop, L: io::Write + Drop>(
    stream: S,
    settings: ServeSettings,
    log: &Log<L>,
) -> io::Result<Logged<'_, StreamWire<S>, L>>
    ensures works { IfOk result (λ line. failures_of line.wire.connection ≡ 0) }
    ensures taken { IfOk result (IsTaken S.ahead S.written settings) }
{
    let wire = StreamWire::with_waits(stream, waits_of(settings))?;
    Ok(Logged::new(wire, log, hearing_of(settings)))
}

// By the clock a listen is short, so that a frame passes in time; several are a silence.
fn waits_of(settings: ServeSettings) -> Waits
    ensures at_silences { settings.by_clock ≡ false → as_nanos result.read ≡ settings.silence * 1000000 }
    ensures by_clock { settings.by_clock ≡ true → as_nanos result.read ≡ TICK * 1000000 }
    ensures reads { result.reads ≡ reads_of settings }
    ensures send { as_nanos result.send ≡ unwrap_or settings.idle SENDING * 1000000000 }
{
    let send = Duration::from_secs(u64::from(settings.idle.unwrap_or(SENDING)));
    let (read, reads) = if settings.by_clock {
        (TICK, settings.silence.div_ceil(TICK))
    } else {
        (settings.silence, 1)
    };
    let read = Duration::from_millis(u64::from(read));
    Waits { read, reads, send }
}

// A frame passes at each pause while there is no line. By the clock a pause is the least time after which one is over.
fn pause_of(settings: ServeSettings) -> Duration
    ensures { IsPause settings (as_nanos result) }
{
    if settings.by_clock {
        Duration::from_nanos(settings.rate.frame_nanos())
    } else {
        Duration::from_millis(u64::from(settings.silence))
    }
}

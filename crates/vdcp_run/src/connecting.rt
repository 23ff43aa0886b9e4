//! How a run connects; one that stays tries until somebody takes the connection.
ghost use Rattle.std.specs.Prelude.{◌≡◌, IfErr, IfSome};
ghost use Rattle.vdcp_run.specs.Session.{IsUnconnected};

use crate::console::Console;
use crate::run_end::Why;
use crate::session::Session;
use crate::settings::RunSettings;
use crate::staying::Pace;
use std::io::{self, ErrorKind};
use std::net::{Net, OpenStream, SocketAddr, SocketAddrV4};
use std::rt::{Clock, Files};
use std::time::Duration;
use vdcp_auto::{Controller, Source};
use vdcp_list::Rest;
use vdcp_operator::Said;

/// How many seconds a connection may take to come about.
const CONNECTING: u64 = 5;

/// The same in a run that stays: short, since its operator is asked between tries.
const CONNECTING_AGAIN: u64 = 1;

impl<
    'r,
    'l,
    R: Net + Files + Clock + AllocGlobal,
    I: io::Read + Drop,
    O: io::Write + Drop,
    V: io::Write + Drop,
> Session<'r, 'l, R, I, O, V> {
    /// Connects once it is time. The error is `GivenUp` if nobody takes the connection then; in a run that stays, `GivenUp` or,
    /// if the last one was taken, `Unheard`, if it tries only for so long, and `Stopped` if the operator stops before somebody
    /// takes one.
    pub fn connect<S: Source>(
        &mut self,
        address: SocketAddrV4,
        controller: &Controller<Rest<S>>,
        settings: RunSettings<'_>,
    ) -> Result<R::Stream, Why>
        ensures unconnected { IfErr result (λ why. IfSome settings.entry.stay (λ stay. IsUnconnected stay.patience why)) }
        ensures list { self.new.console.hand.list ≡ self.old.console.hand.list }
    {
        self.console.hand.note_connecting();
        let stream = match settings.stay {
            Some(stay) => {
                self.console
                    .connect_staying(address, controller, &mut self.pace, stay.patience)?
            }
            None => match self.console.connect_in_time(address, controller) {
                Some(stream) => stream,
                None => return Err(Why::GivenUp),
            },
        };
        self.console.hand.note_connected();
        self.console.tell_up();
        Ok(stream)
    }
}

impl<
    'r,
    'l,
    R: Net + Files + Clock + AllocGlobal,
    I: io::Read + Drop,
    O: io::Write + Drop,
    V: io::Write + Drop,
> Console<'r, 'l, R, I, O, V> {
    fn connect_in_time<S: Source>(
        &mut self,
        address: SocketAddrV4,
        controller: &Controller<Rest<S>>,
    ) -> Option<R::Stream>
        ensures { self.new.hand.list ≡ self.old.hand.list }
    {
        match self.await_time(address, controller) {
            Some(stream) => Some(stream),
            None => connect(self.rt, address, CONNECTING).ok(),
        }
    }

    // Connects once it is time, else tries again at this pace, and tells so once.
    fn connect_staying<S: Source>(
        &mut self,
        address: SocketAddrV4,
        controller: &Controller<Rest<S>>,
        pace: &mut Pace<'r, R>,
        patience: Option<u32>,
    ) -> Result<R::Stream, Why>
        ensures unconnected { IfErr result (IsUnconnected patience) }
        ensures list { self.new.hand.list ≡ self.old.hand.list }
    {
        if self.stops_meanwhile(controller, pace) {
            return Err(Why::Stopped);
        }
        pace.begin();
        let awaits = self.hand.awaits_start();
        let early = self.await_time(address, controller);
        if awaits {
            pace.note_heard();
        }
        if let Some(stream) = early {
            return Ok(stream);
        }
        let mut is_told = false;
        'tries: for _ in 0..u64::MAX {
            if pace.is_spent(patience) {
                return Err(if is_told { Why::GivenUp } else { Why::Unheard });
            }
            match connect(self.rt, address, CONNECTING_AGAIN) {
                Ok(stream) => return Ok(stream),
                Err(error) if !is_told => {
                    self.tell_down(&format_args!(
                        "cannot connect ({error}); trying again each second"
                    ));
                    is_told = true;
                }
                Err(_) => {}
            }
            if self.has_stopped(controller) || self.stops_meanwhile(controller, pace) {
                return Err(Why::Stopped);
            }
            pace.begin();
        }
        Err(Why::Stopped)
    }

    // Waits until the next try may begin, unless the operator stops.
    fn stops_meanwhile<S: Source>(
        &mut self,
        controller: &Controller<Rest<S>>,
        pace: &mut Pace<'r, R>,
    ) -> bool
        ensures { self.new.hand.list ≡ self.old.hand.list }
    {
        'pieces: for _ in 0..u64::MAX {
            if pace.wait_piece() {
                return false;
            }
            if self.has_stopped(controller) {
                return true;
            }
            self.see_down();
        }
        false
    }

    // Another call than stop waits, and requests for the page are answered.
    fn has_stopped<S: Source>(&mut self, controller: &Controller<Rest<S>>) -> bool
        ensures { self.new.hand.list ≡ self.old.hand.list }
    {
        self.hand.heed(controller) == Some(Said::Stop)
    }

    // A run that waits for its start connects at once, to tell early if the server isn't there. That connection is kept,
    // since the server may take no other one, and nothing is sent over it before it is time.
    fn await_time<S: Source>(
        &mut self,
        address: SocketAddrV4,
        controller: &Controller<Rest<S>>,
    ) -> Option<R::Stream>
        ensures { self.new.hand.list ≡ self.old.hand.list }
    {
        let early = if self.hand.awaits_start() {
            self.connect_early(address)
        } else {
            None
        };
        self.hand.await_lead(controller);
        match early {
            Some(stream) if is_open(&stream) => Some(stream),
            _ => None,
        }
    }

    fn connect_early(&self, address: SocketAddrV4) -> Option<R::Stream> {
        match connect(self.rt, address, CONNECTING) {
            Ok(stream) => Some(stream),
            Err(error) => {
                let text = format_args!(
                    "  the server isn't there yet: {address}: {error}; it is asked again at the start"
                );
                if self.is_terminal() {
                    self.log.tell_fault(&text);
                } else {
                    self.log.tell(&text);
                }
                None
            }
        }
    }
}

fn connect<R: Net>(rt: &R, address: SocketAddrV4, seconds: u64) -> io::Result<R::Stream> {
    rt.connect_timeout(SocketAddr::V4(address), Duration::from_secs(seconds))
}

fn is_open<S: OpenStream>(stream: &S) -> bool {
    if stream.set_nonblocking(true).is_err() {
        return false;
    }
    let waits = match stream.peek(&mut [0u8]) {
        Ok(count) => count > 0,
        Err(error) => error.kind() == ErrorKind::WouldBlock,
    };
    stream.set_nonblocking(false).is_ok() && waits
}

//! The subcommand `lossy`: it joins an automation and a server.
use crate::carry::carry;
use crate::doing::Chances;
use crate::session::{CarryEnd, CarryFault, Session};
use crate::tally::Tally;
use std::io;
use std::net::{Net, SocketAddr, SocketAddrV4};
use std::rt::Clock;
use std::time::Duration;
use vdcp_drive::Hearing;
use vdcp_log::{Log, Logged, Side, Telling};
use vdcp_text::Failure;
use vdcp_wire::{AcceptFault, StreamWire, accept_one, address_of};

#[derive(Clone, Copy, Debug, PartialEq, Eq)]
pub struct LossySettings {
    /// The same seed gives the same throws.
    pub seed: u32,
    pub chances: Chances,
    /// The silence that ends a burst, 1 to 60,000 milliseconds: more than the server's.
    pub silence: u32,
    /// How long after its command anything may still go on, 1 to 60,000 milliseconds: less than the automation's silence.
    pub within: u32,
    /// How many waits are made at most, each for bytes or for a silence.
    pub turns: u32,
}

/// Carries bursts between the first automation that connects to `address` and the server at `server`, each an IPv4 address,
/// a colon and a TCP port (for 0 in `address` the system chooses one). `out` gets the address that is listened at, a line
/// for each burst and what was done with it, `closed` or `spent` (the turns), and nine counts, each line flushed at once.
/// `capture` gets rows of what came from the automation and went to it, as `judge` reads them, until it fails.
///
/// The status is 0 if it came to that end, 2 if an address is none, and 3 if `address` can't be listened at, the server
/// doesn't take the connection, or the line failed; `err` gets a line of these. It is 3 if `out` failed, which gets
/// nothing more.
pub fn do_lossy<R: Net + Clock, L: io::Write + Drop, W: io::Write, E: io::Write>(
    rt: &R,
    address: &str,
    server: &str,
    settings: LossySettings,
    capture: Option<L>,
    out: &mut W,
    err: &mut E,
) -> u8 {
    let log = Log::new(Telling::Nothing, capture, Side::Server);
    match lossy(rt, address, server, settings, log, out) {
        Ok(()) => 0,
        Err(failure) => failure.report(err),
    }
}

fn lossy<R: Net + Clock, L: io::Write + Drop, W: io::Write>(
    rt: &R,
    address: &str,
    server: &str,
    settings: LossySettings,
    log: Log<L>,
    out: &mut W,
) -> Result<(), Failure<'static>> {
    let Ok(address) = address_of(address) else {
        return Err(Failure::Address);
    };
    let Ok(server) = address_of(server) else {
        return Err(Failure::Address);
    };
    carry_between(rt, address, server, settings, &log, out)
}

// A connection that refuses to be a wire is a line that failed.
fn carry_between<R: Net + Clock, L: io::Write + Drop, W: io::Write>(
    rt: &R,
    address: SocketAddrV4,
    server: SocketAddrV4,
    settings: LossySettings,
    log: &Log<L>,
    out: &mut W,
) -> Result<(), Failure<'static>> {
    let near = match accept_one(rt, address, out) {
        Ok(stream) => stream,
        Err(AcceptFault::Bind) => return Err(Failure::Bind),
        Err(AcceptFault::Writer) => return Err(Failure::Writer),
    };
    let Ok(far) = rt.connect(SocketAddr::V4(server)) else {
        return Err(Failure::Connect);
    };
    let silence = Duration::from_millis(u64::from(settings.silence));
    let Ok(automation) = StreamWire::new(near, silence) else {
        return Err(Failure::LineFailed);
    };
    let mut automation = Logged::new(automation, log, Hearing::AtSilences);
    let Ok(mut server) = StreamWire::new(far, silence) else {
        return Err(Failure::LineFailed);
    };
    let mut session = Session::new(rt, settings);
    let end = match carry(&mut session, &mut automation, &mut server, out) {
        Ok(end) => end,
        Err(CarryFault::Line) => return Err(Failure::LineFailed),
        Err(CarryFault::Writer) => return Err(Failure::Writer),
    };
    match write_end(end, session.tally(), out) {
        Ok(()) => Ok(()),
        Err(_) => Err(Failure::Writer),
    }
}

fn write_end<W: io::Write>(end: CarryEnd, tally: &Tally, out: &mut W) -> io::Result<()> {
    match end {
        CarryEnd::Closed => writeln!(out, "closed")?,
        CarryEnd::Spent => writeln!(out, "spent")?,
    }
    tally.write(out)?;
    out.flush()
}

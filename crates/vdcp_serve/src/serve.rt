//! The subcommand `serve` and its settings.
ghost use Rattle.std.specs.Prelude.{◌≡◌, ◌≤◌, false, true, IfErr, OnOk};
ghost use Rattle.vdcp_files.specs.Files.{file};
ghost use Rattle.vdcp_port.specs.Clock.{ClockedPort, new_port};
ghost use Rattle.vdcp_serve.specs.Serve.{AreNewHooks, IsRowRefused, IsServe, ServesEach, ServesOne};
ghost use Rattle.vdcp_serve.specs.declared.hooks.Hooks.{Hooks};
ghost use Rattle.vdcp_text.specs.Failure.{status_of};
ghost use Rattle.vdcp_wire.specs.Address.{IsAddress};

use crate::entrance::{Entrance, line_over};
use crate::hooks::Hooks;
use crate::panel::PortPanel;
use crate::stay::{serve_over, stay};
use std::io::{self, ErrorKind};
use std::net::{Net, SocketAddrV4};
use std::rt::Clock;
use vdcp_drive::{DriveFault, TurnsEnd};
use vdcp_files::NamedFile;
use vdcp_log::{Log, Side, Telling};
use vdcp_panel::Panel;
use vdcp_port::{Catalogue, Port};
use vdcp_text::Failure;
use vdcp_value::Rate;
use vdcp_wire::{AcceptFault, Duplex, accept_one, address_of, listen_at};

#[derive(Clone, Copy, Debug, PartialEq, Eq)]
pub struct ServeSettings {
    /// The unit address, 0 to 15.
    pub unit: u8,
    pub port: u8,
    /// How many frames a cue takes, 1 to 1,000.
    pub cue_frames: u32,
    /// The rate of the catalogue's time codes, and of frames by the clock.
    pub rate: Rate,
    /// Whether frames pass by the clock, and what comes is heard at once. Else both go by silences.
    pub by_clock: bool,
    /// The silence that ends a burst, 1 to 60,000 milliseconds.
    pub silence: u32,
    /// How many turns are made at most, each a wait for bytes, for a silence, or for the next connection.
    pub turns: u32,
    /// Whether the port is kept for the next connection when one ends.
    pub stay: bool,
    /// For how many seconds nothing may come, nor go out if something has to, 1 to 86,400. None: a connection may be idle
    /// for ever, and a send fails after ten seconds.
    pub idle: Option<u32>,
}

/// Serves a new port with a catalogue's clips at `address`, an IPv4 address, a colon and a TCP port (0: the system chooses
/// one): to the first automation that connects, or with `stay` to one after another, which find the port as it is.
/// `docs/vdcp.1` has what `out` and the log get; `capture` gets rows that `judge` reads. A log or capture that fails gets
/// no more.
///
/// The status is 0 if the connection was served to its end, or with `stay` once the turns are spent. It is 2 if `address`
/// is none (tested first), 1 if a row of the catalogue is refused, and 3 if it can't be read, memory was refused, the
/// address can't be listened at, no connection comes, or the only line failed; `err` gets a line of these. It is 3 if `out`
/// failed, which gets nothing more.
pub fn do_serve<
    R: Net + AllocGlobal + Clock,
    C: io::Read + Drop,
    L: io::Write + Drop,
    W: io::Write,
    E: io::Write,
>(
    rt: &R,
    address: &str,
    catalogue: NamedFile<'_, C>,
    settings: ServeSettings,
    telling: Telling<L>,
    capture: Option<L>,
    panel: Option<Panel>,
    out: &mut W,
    err: &mut E,
) -> u8
where
    // The clause is of a network whose streams tell their bytes, if there is one.
    R::Stream: Duplex,
    requires unit { settings.unit ≤ 15 }
    requires some_frames { 1 ≤ settings.cue_frames }
    requires few_frames { settings.cue_frames ≤ 1000 }
    ensures served { result ≡ 0 → IsServe R.Listener R.Stream R L R.Stream.ahead R.Stream.written settings
        (file catalogue.entry.name (C.remaining catalogue.entry.reader)) }
    ensures refused { result ≡ 1 → IsRowRefused settings.rate (file catalogue.entry.name (C.remaining catalogue.entry.reader)) }
    ensures no_address { result ≡ 2 → ¬ IsAddress address.now }
    ensures needs_address { ¬ IsAddress address.now → 2 ≤ result }
    ensures statuses { result ≤ 3 }
{
    let log = Log::new(telling, capture, Side::Server);
    match serve(rt, address, catalogue, settings, &log, panel, out) {
        Ok(()) => 0,
        Err(failure) => failure.report(err),
    }
}

fn serve<'a, R: Net + AllocGlobal + Clock, C: io::Read + Drop, L: io::Write + Drop, W: io::Write>(
    rt: &R,
    address: &str,
    catalogue: NamedFile<'a, C>,
    settings: ServeSettings,
    log: &Log<L>,
    panel: Option<Panel>,
    out: &mut W,
) -> Result<(), Failure<'a>>
where
    R::Stream: Duplex,
    requires unit { settings.unit ≤ 15 }
    requires some_frames { 1 ≤ settings.cue_frames }
    requires few_frames { settings.cue_frames ≤ 1000 }
    ensures served { OnOk result (IsServe R.Listener R.Stream R L R.Stream.ahead R.Stream.written settings
        (file catalogue.entry.name (C.remaining catalogue.entry.reader))) }
    ensures address { OnOk result (IsAddress address.now) }
    ensures refused { IfErr result (λ e. status_of e ≡ 1 →
        IsRowRefused settings.rate (file catalogue.entry.name (C.remaining catalogue.entry.reader))) }
    ensures no_address { IfErr result (λ e. status_of e ≡ 2 → ¬ IsAddress address.now) }
    ensures needs_address { IfErr result (λ e. ¬ IsAddress address.now → 2 ≤ status_of e) }
{
    let Ok(address) = address_of(address) else {
        return Err(Failure::Address);
    };
    let clips = catalogue.read_catalogue(rt.alloc(), settings.rate)?;
    let port = new_port(clips, settings);
    let end = if settings.stay {
        serve_each(rt, address, port, settings, log, panel, out)?
    } else {
        serve_first(rt, address, port, settings, log, out)?
    };
    match write_end(end, out) {
        Ok(()) => Ok(()),
        Err(_) => Err(Failure::Writer),
    }
}

fn new_port<C: Catalogue>(catalogue: C, settings: ServeSettings) -> Port<C>
    requires unit { settings.unit ≤ 15 }
    requires some_frames { 1 ≤ settings.cue_frames }
    requires few_frames { settings.cue_frames ≤ 1000 }
    ensures { result ≡ new_port (C.clips catalogue) settings.unit settings.port settings.cue_frames }
{
    Port::with_clock(catalogue, settings.unit, settings.port, settings.cue_frames)
}

fn serve_first<
    'a,
    R: Net + AllocGlobal + Clock,
    C: Catalogue + Drop,
    L: io::Write + Drop,
    W: io::Write,
>(
    rt: &'a R,
    address: SocketAddrV4,
    port: Port<C>,
    settings: ServeSettings,
    log: &'a Log<L>,
    out: &mut W,
) -> Result<TurnsEnd, Failure<'static>>
where
    R::Stream: Duplex,
    ensures served { OnOk result ((first last : Hooks R L) × (left : ClockedPort) × AreNewHooks settings port first
        × ServesOne R.Stream.ahead R.Stream.written settings port first last left) }
    ensures failed { IfErr result (λ e. status_of e ≡ 3) }
{
    let stream = match accept_one(rt, address, out) {
        Ok(stream) => stream,
        Err(fault) => return Err(failure_of(fault)),
    };
    let Ok(line) = line_over(stream, settings, log) else {
        return Err(Failure::LineFailed);
    };
    let mut hooks = Hooks::new(rt, log, settings.rate, None);
    let turns = u64::from(settings.turns);
    match serve_over(port, line, None, settings, turns, &mut hooks) {
        (_, Ok(end)) => Ok(end),
        (_, Err(DriveFault::Device)) => Err(Failure::LineFailed),
    }
}

fn serve_each<
    'a,
    R: Net + AllocGlobal + Clock,
    C: Catalogue + Drop,
    L: io::Write + Drop,
    W: io::Write,
>(
    rt: &'a R,
    address: SocketAddrV4,
    port: Port<C>,
    settings: ServeSettings,
    log: &'a Log<L>,
    panel: Option<Panel>,
    out: &mut W,
) -> Result<TurnsEnd, Failure<'static>>
where
    R::Stream: Duplex,
    ensures served { OnOk result ((first last : Hooks R L) × (left : ClockedPort) × AreNewHooks settings port first
        × ServesEach R.Listener R.Stream.ahead R.Stream.written settings port first last left) }
    ensures failed { IfErr result (λ e. status_of e ≡ 3) }
{
    let listener = match listen_at(rt, address, out) {
        Ok(listener) => listener,
        Err(fault) => return Err(failure_of(fault)),
    };
    let mut entrance = match Entrance::new(rt, listener, settings, log) {
        Ok(entrance) => entrance,
        Err(error) if error.kind() == ErrorKind::OutOfMemory => return Err(Failure::Memory),
        Err(_) => return Err(Failure::Bind),
    };
    let panel = match panel {
        Some(panel) => Some(PortPanel::new(rt, panel, settings.rate, &port)?),
        None => None,
    };
    let mut hooks = Hooks::new(rt, log, settings.rate, panel);
    match stay(port, &mut entrance, settings, &mut hooks) {
        Ok(_) => Ok(TurnsEnd::Spent),
        Err(_) => Err(Failure::Bind),
    }
}

fn failure_of(fault: AcceptFault) -> Failure<'static>
    ensures { status_of result ≡ 3 }
{
    match fault {
        AcceptFault::Bind => Failure::Bind,
        AcceptFault::Writer => Failure::Writer,
    }
}

fn write_end<W: io::Write>(end: TurnsEnd, out: &mut W) -> io::Result<()> {
    writeln!(out, "{}", word_of(end))?;
    out.flush()
}

pub(crate) fn word_of(end: TurnsEnd) -> &'static str {
    match end {
        TurnsEnd::Closed => "closed",
        TurnsEnd::GivenUp => "idle",
        TurnsEnd::Spent => "spent",
    }
}

//! The subcommand `sim`: a script is run, and what came of it printed.
ghost use Rattle.std.specs.Io.KnownBytes.{Appends, Keeps};
ghost use Rattle.std.specs.Prelude.{◌≡◌, ◌≢◌, ◌⊎◌, ◌≤◌, IfErr, IsTrue, OnOk, true};
ghost use Rattle.vdcp_offline.specs.Check.{AreWhole};
ghost use Rattle.vdcp_files.specs.Files.{file};
ghost use Rattle.vdcp_text.specs.Subcommand.{IsSubcommand};
ghost use Rattle.vdcp_offline.specs.Sim.{IsRun, IsRunFailure, IsSimulated, IsUnsimulated, RefusesOne};
ghost use Rattle.vdcp_offline.specs.Sim.{aired_line, aired_text, channel_of, end_text, exchange_line, run_text, trace_text};
ghost use Rattle.vdcp_text.specs.Failure.{status_of};

use crate::sim::script::read_events;
use std::alloc::Global;
use std::io;
use vdcp_auto::{Exchange, Mode, Outcome, Source};
use vdcp_files::NamedFile;
use vdcp_port::Catalogue;
use vdcp_text::{ExchangeText, Failure, ItemText, OutcomeText};
use vdcp_value::{Item, Rate};
use vdcp_world::World;

mod script;

#[derive(Clone, Copy, Debug, PartialEq, Eq)]
pub struct SimSettings {
    /// The unit address of both ends, 0 to 15.
    pub unit: u8,
    pub port: u8,
    /// How many unanswered exchanges in a row end the controller, 1 to 1,000.
    pub limit: u32,
    /// The length of a cue, 1 to 1,000 frames.
    pub cue_frames: u32,
    /// In confirm mode receipts may come from nowhere.
    pub mode: Mode,
    /// The rate of the files' time codes.
    pub rate: Rate,
    /// Whether each exchange is printed.
    pub trace: bool,
}

/// Runs a script of events in a new world, in which the controller plays the list through a port with the catalogue's
/// clips. `out` gets, with `trace`, a line for each exchange, then one for each item that went to air, then how many events
/// are reported, how many exchanges ended, and how the controller ended. Then it is flushed.
///
/// The status is 0 whatever came of the events, 1 if a row or the script is refused, and 3 if a file can't be read or
/// memory was refused: then `err` gets one line, and `out` nothing. List and catalogue are read first. It is 3 if a writer
/// failed, which gets nothing more.
pub fn do_sim<
    L: io::Read + Drop,
    C: io::Read + Drop,
    R: io::Read + Drop,
    W: io::Write,
    E: io::Write,
>(
    alloc: Global,
    list: NamedFile<'_, L>,
    catalogue: NamedFile<'_, C>,
    script: NamedFile<'_, R>,
    settings: SimSettings,
    out: &mut W,
    err: &mut E,
) -> u8
    requires unit { settings.unit ≤ 15 }
    requires some { 1 ≤ settings.limit }
    requires few { settings.limit ≤ 1000 }
    requires some_frames { 1 ≤ settings.cue_frames }
    requires few_frames { settings.cue_frames ≤ 1000 }
    ensures { let l = file list.entry.name (L.remaining list.entry.reader) in
        let c = file catalogue.entry.name (C.remaining catalogue.entry.reader) in
        IsSubcommand (λ good old new. IsTrue good × IsSimulated settings l c (R.remaining script.entry.reader) old new)
        (RefusesOne settings.rate l c script.entry.name) (AreWhole settings.rate l c)
        (W.contents out.old) (W.contents out.new) (E.contents err.old) (E.contents err.new) result }
{
    match simulate(alloc, list, catalogue, script, settings, out) {
        Ok(()) => 0,
        Err(failure) => failure.report(err),
    }
}

fn simulate<'a, L: io::Read + Drop, C: io::Read + Drop, R: io::Read + Drop, W: io::Write>(
    alloc: Global,
    list: NamedFile<'a, L>,
    catalogue: NamedFile<'a, C>,
    script: NamedFile<'a, R>,
    settings: SimSettings,
    out: &mut W,
) -> Result<(), Failure<'a>>
    requires unit { settings.unit ≤ 15 }
    requires some { 1 ≤ settings.limit }
    requires few { settings.limit ≤ 1000 }
    requires some_frames { 1 ≤ settings.cue_frames }
    requires few_frames { settings.cue_frames ≤ 1000 }
    ensures simulated { OnOk result
        (IsSimulated settings (file list.entry.name (L.remaining list.entry.reader))
        (file catalogue.entry.name (C.remaining catalogue.entry.reader)) (R.remaining script.entry.reader)
        (W.contents out.old) (W.contents out.new)) }
    ensures unsimulated { IfErr result
        (IsUnsimulated settings.rate (file list.entry.name (L.remaining list.entry.reader))
        (file catalogue.entry.name (C.remaining catalogue.entry.reader))
        script.entry.name (W.contents out.old) (W.contents out.new)) }
    ensures silent { Keeps (W.contents out.old) (W.contents out.new)
        ⊎ AreWhole settings.rate (file list.entry.name (L.remaining list.entry.reader))
        (file catalogue.entry.name (C.remaining catalogue.entry.reader)) }
    ensures statuses { IfErr result (λ e. status_of e ≢ 2) }
{
    let events = list.read_list(alloc, settings.rate)?;
    let clips = catalogue.read_catalogue(alloc, settings.rate)?;
    run_script(alloc, events, clips, script, settings, out)
}

fn run_script<'a, S: Source + Drop, C: Catalogue + Drop, R: io::Read + Drop, W: io::Write>(
    alloc: Global,
    source: S,
    catalogue: C,
    script: NamedFile<'a, R>,
    settings: SimSettings,
    out: &mut W,
) -> Result<(), Failure<'a>>
    requires unit { settings.unit ≤ 15 }
    requires some { 1 ≤ settings.limit }
    requires few { settings.limit ≤ 1000 }
    requires some_frames { 1 ≤ settings.cue_frames }
    requires few_frames { settings.cue_frames ≤ 1000 }
    ensures ran { OnOk result (IsRun settings (S.items source) (C.clips catalogue) (R.remaining script.entry.reader)
        (W.contents out.old) (W.contents out.new)) }
    ensures failed { IfErr result (IsRunFailure script.entry.name (W.contents out.old) (W.contents out.new)) }
    ensures statuses { IfErr result (λ e. status_of e ≢ 2) }
{
    let events = read_events(alloc, script)?;
    let mut world = new_world(alloc, source, catalogue, settings);
    world.run(events.as_slice())?;
    let (log, aired) = (world.log(), world.aired());
    write_run(log, aired, world.reported(), world.outcome(), settings, out).map_err(
        |_| Failure::Writer,
    )
}

fn new_world<S: Source, C: Catalogue>(
    alloc: Global,
    source: S,
    catalogue: C,
    settings: SimSettings,
) -> World<S, C, Global>
    requires unit { settings.unit ≤ 15 }
    requires some { 1 ≤ settings.limit }
    requires few { settings.limit ≤ 1000 }
    requires some_frames { 1 ≤ settings.cue_frames }
    requires few_frames { settings.cue_frames ≤ 1000 }
    ensures { result ≡ channel_of settings (S.items source) (C.clips catalogue) }
{
    let SimSettings {
        unit,
        port,
        limit,
        cue_frames,
        ..
    } = settings;
    match settings.mode {
        Mode::Plain => World::with_clock(alloc, source, catalogue, unit, port, limit, cue_frames),
        Mode::Confirming => {
            World::confirming(alloc, source, catalogue, unit, port, limit, cue_frames)
        }
    }
}

fn write_run<W: io::Write>(
    log: &[Exchange],
    aired: &[Item],
    reported: usize,
    outcome: Option<Outcome>,
    settings: SimSettings,
    out: &mut W,
) -> io::Result<()>
    ensures { OnOk result (Appends (W.contents out.old) (W.contents out.new)
        (run_text settings.trace settings.rate log.now aired.now reported outcome)) }
{
    if settings.trace {
        write_log(log, out)?;
    }
    write_aired(aired, settings.rate, out)?;
    write_end(reported, log.len(), outcome, out)?;
    out.flush()
}

fn write_log<W: io::Write>(log: &[Exchange], out: &mut W) -> io::Result<()>
    ensures { OnOk result (Appends (W.contents out.old) (W.contents out.new) (trace_text true log.now)) }
{
    for (k, exchange) in log.iter().enumerate() {
        write_exchange(k + 1, *exchange, out)?;
    }
    Ok(())
}

fn write_exchange<W: io::Write>(number: usize, exchange: Exchange, out: &mut W) -> io::Result<()>
    ensures { OnOk result (Appends (W.contents out.old) (W.contents out.new) (exchange_line number exchange)) }
{
    let exchange = ExchangeText(exchange);
    writeln!(out, "{number} {exchange}")
}

fn write_aired<W: io::Write>(aired: &[Item], rate: Rate, out: &mut W) -> io::Result<()>
    ensures { OnOk result (Appends (W.contents out.old) (W.contents out.new) (aired_text rate aired.now)) }
{
    for (k, item) in aired.iter().enumerate() {
        write_item(k, *item, rate, out)?;
    }
    Ok(())
}

fn write_item<W: io::Write>(k: usize, item: Item, rate: Rate, out: &mut W) -> io::Result<()>
    ensures { OnOk result (Appends (W.contents out.old) (W.contents out.new) (aired_line rate k item)) }
{
    let item = ItemText { rate, item };
    writeln!(out, "aired {k} {item}")
}

fn write_end<W: io::Write>(
    reported: usize,
    exchanges: usize,
    outcome: Option<Outcome>,
    out: &mut W,
) -> io::Result<()>
    ensures { OnOk result (Appends (W.contents out.old) (W.contents out.new) (end_text reported exchanges outcome)) }
{
    let outcome = OutcomeText(outcome);
    writeln!(out, "reported {reported}")?;
    writeln!(out, "exchanges {exchanges}")?;
    writeln!(out, "outcome {outcome}")
}

//! Subcommands, from the words of the command line to the calls of their libraries.
use crate::settings::{
    ask_settings_of, asrun_settings_of, judge_settings_of, lossy_settings_of, probe_settings_of,
    serve_settings_of, sim_settings_of,
};
use clap::ArgMatches;
use std::fs::File;
use std::io::{Read, Write};
use std::os::unix::fs::MetadataExt;
use vdcp_files::NamedFile;
use vdcp_journal_file::{AsrunSettings, do_asrun, do_asrun_by_cues};
use vdcp_line::number::unit_of;
use vdcp_line::rate::rate_of;
use vdcp_line::{Output, System, capture_of, open_file};
use vdcp_log::{Lines, Screen, Telling};
use vdcp_lossy::do_lossy;
use vdcp_offline::{do_check, do_judge, do_sim, do_vectors};
use vdcp_panel::open_panel;
use vdcp_probe::{do_ask, do_probe};
use vdcp_serve::do_serve;
use vdcp_text::{Failure, JournalFault, do_make, do_show};

/// Runs a subcommand that isn't `run`, and gives its exit status; a failure isn't told yet.
pub fn run_named<'a, W: Write, E: Write>(
    system: &System<'_>,
    name: &str,
    matches: &'a ArgMatches<'_>,
    out: &mut W,
    err: &mut E,
) -> Result<u8, Failure<'a>> {
    match name {
        "show" => Ok(run_show(system, matches, out, err)),
        "make" => Ok(run_make(matches, out, err)),
        "check" => run_check(system, matches, out, err),
        "ask" => run_ask(system, matches, out, err),
        "sim" => run_sim(system, matches, out, err),
        "serve" => run_serve(system, matches, out, err),
        "asrun" => run_asrun(system, matches, out, err),
        "judge" => run_judge(system, matches, out, err),
        "probe" => run_probe(system, matches, out, err),
        "lossy" => run_lossy(system, matches, err),
        "vectors" => run_vectors(system, matches, out, err),
        // (`clap` lets no other name through)
        _ => Ok(2),
    }
}

fn run_show<W: Write, E: Write>(
    system: &System<'_>,
    matches: &ArgMatches<'_>,
    out: &mut W,
    err: &mut E,
) -> u8 {
    let hex = matches.get_str("HEX").unwrap_or("");
    do_show(system.alloc(), hex, matches.get_flag("words"), out, err)
}

fn run_make<W: Write, E: Write>(matches: &ArgMatches<'_>, out: &mut W, err: &mut E) -> u8 {
    let name = matches.get_str("COMMAND").unwrap_or("");
    let arguments = matches.get_strs("ARG").unwrap_or(&[]);
    do_make(name, arguments, unit_of(matches), out, err)
}

fn run_check<'a, W: Write, E: Write>(
    system: &System<'_>,
    matches: &'a ArgMatches<'_>,
    out: &mut W,
    err: &mut E,
) -> Result<u8, Failure<'a>> {
    let list = open_file(system, matches, "LIST")?;
    let catalogue = open_file(system, matches, "CATALOGUE")?;
    let rate = rate_of(matches);
    Ok(do_check(system.alloc(), list, catalogue, rate, out, err))
}

fn run_ask<'a, W: Write, E: Write>(
    system: &System<'_>,
    matches: &'a ArgMatches<'_>,
    out: &mut W,
    err: &mut E,
) -> Result<u8, Failure<'a>> {
    let list = open_file(system, matches, "LIST")?;
    let address = matches.get_str("ADDR").unwrap_or("");
    Ok(do_ask(system, address, list, ask_settings_of(matches), out, err))
}

fn run_sim<'a, W: Write, E: Write>(
    system: &System<'_>,
    matches: &'a ArgMatches<'_>,
    out: &mut W,
    err: &mut E,
) -> Result<u8, Failure<'a>> {
    let list = open_file(system, matches, "LIST")?;
    let catalogue = open_file(system, matches, "CATALOGUE")?;
    let script = open_file(system, matches, "SCRIPT")?;
    let settings = sim_settings_of(matches);
    Ok(do_sim(system.alloc(), list, catalogue, script, settings, out, err))
}

fn run_serve<'a, W: Write, E: Write>(
    system: &System<'_>,
    matches: &'a ArgMatches<'_>,
    out: &mut W,
    err: &mut E,
) -> Result<u8, Failure<'a>> {
    let catalogue = open_file(system, matches, "CATALOGUE")?;
    let address = matches.get_str("ADDR").unwrap_or("");
    let settings = serve_settings_of(matches);
    let panel = match matches.get_str("panel") {
        Some(text) => match open_panel(system.rt, text, false, err) {
            Ok(panel) => Some(panel),
            Err(status) => return Ok(status),
        },
        None => None,
    };
    let capture = capture_of(system, matches, &["CATALOGUE"])?;
    let terminal = Output::Terminal(Screen::new(system, system.rt.stderr()));
    let telling = if matches.get_flag("log") {
        Telling::All(terminal)
    } else {
        Telling::Faults(terminal)
    };
    Ok(do_serve(
        system, address, catalogue, settings, telling, capture, panel, out, err,
    ))
}

fn run_asrun<'a, W: Write, E: Write>(
    system: &System<'_>,
    matches: &'a ArgMatches<'_>,
    out: &mut W,
    err: &mut E,
) -> Result<u8, Failure<'a>> {
    let journal = open_file(system, matches, "JOURNAL")?;
    let settings = asrun_settings_of(matches);
    if matches.get_str("LIST").is_some() {
        let list = open_file(system, matches, "LIST")?;
        return Ok(do_asrun(system.alloc(), journal, list, settings, out, err));
    }
    let Some(size) = regular_size(&journal.reader) else {
        return asrun_held(system, journal, settings, out, err);
    };
    let cues = open_file(system, matches, "JOURNAL")?.reader;
    if !is_one_file(&journal.reader, &cues) {
        return asrun_held(system, journal, settings, out, err);
    }
    let NamedFile { name, reader } = journal;
    let reader = reader.take(size);
    let journal = NamedFile { name, reader };
    Ok(do_asrun_by_cues(system.alloc(), journal, cues.take(size), settings, out, err))
}

// A run may append to the file while it is read.
fn regular_size(file: &File) -> Option<u64> {
    match file.metadata() {
        Ok(found) if found.is_file() && found.len() > 0 => Some(found.len()),
        _ => None,
    }
}

// Another file may have got the name meanwhile.
fn is_one_file(file: &File, other: &File) -> bool {
    match (file.metadata(), other.metadata()) {
        (Ok(file), Ok(other)) => file.dev() == other.dev() && file.ino() == other.ino(),
        _ => false,
    }
}

// What can't be read twice, as a pipe, is held.
fn asrun_held<'a, W: Write, E: Write>(
    system: &System<'_>,
    journal: NamedFile<'a, File>,
    settings: AsrunSettings,
    out: &mut W,
    err: &mut E,
) -> Result<u8, Failure<'a>> {
    let name = journal.name;
    let bytes = match journal.read_lines(system.alloc()) {
        Ok(bytes) => bytes,
        Err(Failure::ScriptLine(name, row, _)) => {
            return Err(Failure::JournalRow(name, row, JournalFault::Long));
        }
        Err(failure) => return Err(failure),
    };
    let reader = bytes.as_slice();
    let journal = NamedFile { name, reader };
    Ok(do_asrun_by_cues(system.alloc(), journal, reader, settings, out, err))
}

fn run_judge<'a, W: Write, E: Write>(
    system: &System<'_>,
    matches: &'a ArgMatches<'_>,
    out: &mut W,
    err: &mut E,
) -> Result<u8, Failure<'a>> {
    let list = open_file(system, matches, "LIST")?;
    let capture = open_file(system, matches, "CAPTURE")?;
    let settings = judge_settings_of(matches);
    Ok(do_judge(system.alloc(), list, capture, settings, out, err))
}

fn run_probe<'a, W: Write, E: Write>(
    system: &System<'_>,
    matches: &'a ArgMatches<'_>,
    out: &mut W,
    err: &mut E,
) -> Result<u8, Failure<'a>> {
    let catalogue = open_file(system, matches, "CATALOGUE")?;
    let address = matches.get_str("ADDR").unwrap_or("");
    let settings = probe_settings_of(matches);
    Ok(do_probe(system, address, catalogue, settings, out, err))
}

fn run_lossy<'a, E: Write>(
    system: &System<'_>,
    matches: &'a ArgMatches<'_>,
    err: &mut E,
) -> Result<u8, Failure<'a>> {
    let address = matches.get_str("ADDR").unwrap_or("");
    let server = matches.get_str("SERVER").unwrap_or("");
    let settings = lossy_settings_of(matches);
    // (if nobody reads its lines, that doesn't hold the two ends up)
    let mut out = Lines::new(Screen::new(system, system.rt.stdout()));
    let capture = capture_of(system, matches, &[])?;
    Ok(do_lossy(system, address, server, settings, capture, &mut out, err))
}

fn run_vectors<'a, W: Write, E: Write>(
    system: &System<'_>,
    matches: &'a ArgMatches<'_>,
    out: &mut W,
    err: &mut E,
) -> Result<u8, Failure<'a>> {
    let file = open_file(system, matches, "FILE")?;
    Ok(do_vectors(system.alloc(), file, out, err))
}

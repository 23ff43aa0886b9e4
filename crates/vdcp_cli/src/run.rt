//! The subcommand `run`, from the words of the command line to the call of its library.
ghost use Rattle.std.specs.Prelude.{◌≡◌, ◌≤◌};

use crate::start::tell_start;
use clap::ArgMatches;
use std::alloc::{AllocError, Global};
use std::io::{IsTerminal, Stderr, Stdin, Write};
use std::path::Path;
use std::rt::Clock;
use std::time::Duration;
use std::{env, fs};
use vdcp_drive::Hearing;
use vdcp_line::number::{
    from_of, limit_of, listens_of, patience_of, poll_of, port_of, run_silence_of, unit_of,
};
use vdcp_line::rate::rate_of;
use vdcp_line::{Output, Resumable, System, capture_of, open_file};
use vdcp_list::Table;
use vdcp_log::{Screen, Telling};
use vdcp_operator::{Hand, Keys, RunNames, RunPage, is_channel_name, start_of};
use vdcp_options::mode_of;
use vdcp_panel::open_panel;
use vdcp_run::{RunJournal, RunSettings, Showing, Staying, Unsure, do_run};
use vdcp_text::{Failure, NameText};
use vdcp_value::Rate;

/// Gives the exit status; a failure isn't told yet. `own` is the name that `own_journal` gives.
pub fn run_run<'a, W: Write, E: Write>(
    system: &'a System<'_>,
    matches: &'a ArgMatches<'_>,
    own: Option<&'a str>,
    out: &mut W,
    err: &mut E,
) -> Result<u8, Failure<'a>> {
    let list = open_file(system, matches, "LIST")?;
    let address = matches.get_str("ADDR").unwrap_or("");
    let settings = with_journal(run_settings_of(matches), own);
    let clips = clips_of(system, matches, settings.rate)?;
    let hand = match hand_of(system, matches, settings, clips, err) {
        Ok(hand) => hand,
        Err(status) => return Ok(status),
    };
    let capture = capture_of(
        system,
        matches,
        &["LIST", "asrun", "journal", "resume", "catalogue"],
    )?;
    let stderr = system.rt.stderr();
    let is_terminal = stderr.is_terminal();
    let told = Output::Terminal(Screen::new(system, system.rt.stderr()));
    let (terminal, telling) = if matches.get_flag("log") {
        (None, Telling::All(told))
    } else if is_terminal {
        let journal = settings.journal.map(|journal| journal.name());
        let screen = Output::Run(Resumable::new(Screen::new(system, stderr), journal));
        (Some(screen), Telling::Faults(told))
    } else {
        (None, Telling::Faults(told))
    };
    let showing = Showing {
        terminal,
        telling,
        capture,
    };
    let mut advice = None;
    let status = do_run(
        system,
        address,
        list,
        settings,
        showing,
        hand,
        &mut advice,
        out,
        err,
    );
    if let (Some(advice), true) = (advice, is_terminal) {
        let _ = writeln!(err, "  {advice}");
    }
    if let Some(name) = own {
        end_journal(system, name, status, err);
    }
    Ok(status)
}

/// The journal of a run that stays and names none: a new file in the folder for temporary files.
pub fn own_journal(
    system: &System<'_>,
    matches: &ArgMatches<'_>,
) -> Result<Option<String>, Failure<'static>> {
    let has_name = matches.get_str("journal").is_some() || matches.get_str("resume").is_some();
    if matches.get_str("stay").is_none() || has_name {
        return Ok(None);
    }
    let Ok(mut path) = env::temp_dir(system.rt) else {
        return Err(Failure::Memory);
    };
    let since = system.since_1970().unwrap_or(Duration::ZERO).as_nanos();
    let name = format!(in system.alloc(); "vdcp-{since}.journal")?;
    path.push(name.as_str())?;
    Ok(Some(path.into_string()))
}

// It stays only if the run may have to be gone on with.
fn end_journal<E: Write>(system: &System<'_>, name: &str, status: u8, err: &mut E) {
    if status == 0 {
        let _ = fs::remove_file(system, name);
    } else if Path::new(name).exists(system) {
        let _ = writeln!(err, "  the run's journal is {}", NameText(name));
    }
}

fn clips_of<'a>(
    system: &System<'_>,
    matches: &'a ArgMatches<'_>,
    rate: Rate,
) -> Result<Option<Table>, Failure<'a>> {
    match matches.get_str("catalogue") {
        Some(_) => {
            let catalogue = open_file(system, matches, "catalogue")?;
            Ok(Some(catalogue.read_catalogue(system.alloc(), rate)?))
        }
        None => Ok(None),
    }
}

// The error is the exit status, if the page or the start is refused.
fn hand_of<'a, E: Write>(
    system: &'a System<'_>,
    matches: &ArgMatches<'_>,
    settings: RunSettings<'_>,
    clips: Option<Table>,
    err: &mut E,
) -> Result<Hand<'a, System<'a>, Keys<Stdin>, Screen<Stderr>>, u8> {
    let start = match matches.get_str("at") {
        Some(text) => Some(start_time(system, text, err)?),
        None => None,
    };
    let page = match matches.get_str("panel") {
        Some(text) => {
            test_name(matches, err)?;
            let panel = open_panel(system.rt, text, true, err)?;
            let Ok(names) = names_of(system.alloc(), matches, settings) else {
                return Err(Failure::Memory.report(err));
            };
            Some(RunPage::new(system.alloc(), panel, names, settings.rate, clips))
        }
        None => None,
    };
    let keys = if matches.get_flag("operator") {
        Some(Keys::new(system, system.rt.stdin()))
    } else {
        None
    };
    let told = Screen::new(system, system.rt.stderr());
    let (poll, stays) = (least_poll_of(matches), settings.stay.is_some());
    Ok(Hand::new(system, keys, told, page, start, poll, stays))
}

fn test_name<E: Write>(matches: &ArgMatches<'_>, err: &mut E) -> Result<(), u8> {
    match matches.get_str("name") {
        Some(name) if !is_channel_name(name) => match writeln!(err, "vdcp: name") {
            Ok(()) => Err(2),
            Err(_) => Err(3),
        },
        _ => Ok(()),
    }
}

fn names_of(
    alloc: Global,
    matches: &ArgMatches<'_>,
    settings: RunSettings<'_>,
) -> Result<RunNames, AllocError> {
    let journal = match settings.journal {
        Some(journal) => journal.name(),
        None => "",
    };
    Ok(RunNames {
        channel: String::from_str(alloc, matches.get_str("name").unwrap_or(""))?,
        server: String::from_str(alloc, matches.get_str("ADDR").unwrap_or(""))?,
        list: String::from_str(alloc, matches.get_str("LIST").unwrap_or(""))?,
        journal: String::from_str(alloc, journal)?,
    })
}

fn start_time<E: Write>(system: &System<'_>, text: &str, err: &mut E) -> Result<Duration, u8> {
    match start_of(system.rt, text) {
        Ok(start) => {
            if system.rt.stderr().is_terminal() {
                tell_start(system, start, err);
            }
            Ok(start)
        }
        Err(fault) => match writeln!(err, "vdcp: {fault}") {
            Ok(()) => Err(2),
            Err(_) => Err(3),
        },
    }
}

fn with_journal<'a>(settings: RunSettings<'a>, own: Option<&'a str>) -> RunSettings<'a>
    ensures unit { result.unit ≡ settings.entry.unit }
    ensures limit { result.limit ≡ settings.entry.limit }
{
    match own {
        Some(name) => RunSettings {
            journal: Some(RunJournal::New(name)),
            ..settings
        },
        None => settings,
    }
}

fn journal_of<'a>(matches: &'a ArgMatches<'_>) -> Option<RunJournal<'a>> {
    match (matches.get_str("resume"), matches.get_str("journal")) {
        (Some(name), _) if opens_again(matches) => Some(RunJournal::Again(name)),
        (Some(name), _) => Some(RunJournal::Older(name)),
        (None, Some(name)) => Some(RunJournal::New(name)),
        (None, None) => None,
    }
}

fn staying_of(matches: &ArgMatches) -> Option<Staying> {
    matches.get_str("stay")?;
    Some(Staying {
        skip: matches.get_flag("skip"),
        unsure: match matches.get_str("unsure") {
            Some("again") => Unsure::Again,
            Some(_) => Unsure::Stop,
            None => Unsure::LeaveOut,
        },
        patience: patience_of(matches),
    })
}

// A run that begins with a named event opens the port again.
fn opens_again(matches: &ArgMatches) -> bool {
    matches.get_flag("open-again") || matches.get_str("from").is_some()
}

fn run_settings_of<'a>(matches: &'a ArgMatches<'_>) -> RunSettings<'a>
    ensures unit { result.unit ≤ 15 }
    ensures some { 1 ≤ result.limit }
    ensures few { result.limit ≤ 1000 }
    ensures some_silence { 1 ≤ result.silence }
    ensures short_silence { result.silence ≤ 60000 }
{
    RunSettings {
        unit: unit_of(matches),
        port: port_of(matches),
        limit: run_limit_of(matches),
        mode: mode_of(matches),
        ask: matches.get_flag("ask"),
        rate: rate_of(matches),
        silence: run_silence_of(matches),
        hearing: hearing_of(matches),
        listens: listens_of(matches),
        from: from_of(matches),
        wanted: from_of(matches),
        asrun: matches.get_str("asrun"),
        journal: journal_of(matches),
        stay: staying_of(matches),
    }
}

// The specification says 3. On a line that keeps order 10 leave time for the system to send what was lost twice again.
fn run_limit_of(matches: &ArgMatches) -> u32
    ensures least { 1 ≤ result }
    ensures most { result ≤ 1000 }
{
    if let Some(_) = matches.get_str("limit") {
        return limit_of(matches);
    }
    if matches.get_flag("prompt") { 10 } else { 3 }
}

fn hearing_of(matches: &ArgMatches) -> Hearing {
    if matches.get_flag("prompt") {
        Hearing::AtOnce
    } else {
        Hearing::AtSilences
    }
}

// In milliseconds. A run that hears at silences waits for these anyway.
fn least_poll_of(matches: &ArgMatches) -> u32 {
    if matches.get_flag("prompt") {
        poll_of(matches)
    } else {
        0
    }
}

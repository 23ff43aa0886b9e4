//! The program `vdcp`: it shows, makes and tests messages of the Video Disk Communications Protocol, checks playlists,
//! and plays them, by a script or over TCP; there it can be either end, and also what damages the line between them.
//!
//! Files, in reading order: `main`, `run`, `told`, `start`. The words of the command line are in `vdcp_line`, the other
//! subcommands in `vdcp_options`. `args` and `stdout`, beside `src/`, are the words of one run and what it prints.
#![tactic(auto)]

mod run;
mod start;
mod told;

use clap::ArgMatches;
use clap::error::ErrorKind;
use run::{own_journal, run_run};
use std::fs::File;
use std::io::{BufWriter, IsTerminal, Write};
use std::process::ExitCode;
use std::{env, io};
use told::Told;
use vdcp_line::{System, command};
use vdcp_options::run_named;
use vdcp_text::Failure;

fn main(rt: HostRuntime) -> ExitCode {
    let status = match run_words(&rt) {
        Ok(status) => status,
        Err(failure) => failure.report(&mut rt.stderr()),
    };
    ExitCode::from(status)
}

fn run_words(rt: &HostRuntime) -> Result<u8, Failure<'static>> {
    // If a standard stream is closed, the next file or connection would get its descriptor, and with it what is
    // printed. So these three take the descriptors first.
    let _input = open_nothing(rt)?;
    let _output = open_nothing(rt)?;
    let _error = open_nothing(rt)?;
    let alloc = rt.alloc();
    let arguments: Vec<String> = match env::args(rt) {
        Ok(arguments) => arguments.collect(alloc)?,
        Err(error) if error.kind() == io::ErrorKind::OutOfMemory => return Err(Failure::Memory),
        Err(_) => return Err(Failure::Text),
    };
    let command = command(alloc, arguments.get(1).map(|word| word.as_str()))?;
    let matches = match command.try_get_matches_from(arguments.as_slice()) {
        Ok(matches) => matches,
        Err(error) => return shown(rt, &error),
    };
    let Ok(mut out) = BufWriter::new(alloc, rt.stdout()) else {
        return Err(Failure::Memory);
    };
    let status = match matches.subcommand() {
        Some((name, matches)) => run_subcommand(rt, name, matches, &mut out),
        None => 2,
    };
    // (dropped, the buffer would write again what a failed write has left in it)
    out.into_parts();
    Ok(status)
}

fn open_nothing(rt: &HostRuntime) -> Result<File, Failure<'static>> {
    match File::open(rt, "/dev/null") {
        Ok(file) => Ok(file),
        Err(error) if error.kind() == io::ErrorKind::OutOfMemory => Err(Failure::Memory),
        Err(_) => Err(Failure::Open("/dev/null")),
    }
}

fn run_subcommand<'a, W: Write>(
    rt: &'a HostRuntime,
    name: &str,
    matches: &'a ArgMatches<'_>,
    out: &mut W,
) -> u8 {
    let system = System::new(rt);
    let mut err = Told::new(rt.stderr());
    let status = if name == "run" {
        run_list(&system, matches, out, &mut err)
    } else {
        status_of(run_named(&system, name, matches, out, &mut err), &mut err)
    };
    explain(&system, reads_journal(name, matches), &mut err);
    status
}

fn run_list<W: Write, E: Write>(
    system: &System<'_>,
    matches: &ArgMatches<'_>,
    out: &mut W,
    err: &mut E,
) -> u8 {
    let own = match own_journal(system, matches) {
        Ok(own) => own,
        Err(failure) => return failure.report(err),
    };
    let name = own.as_ref().map(|name| name.as_str());
    status_of(run_run(system, matches, name, out, err), err)
}

fn status_of<E: Write>(done: Result<u8, Failure<'_>>, err: &mut E) -> u8 {
    match done {
        Ok(status) => status,
        Err(failure) => failure.report(err),
    }
}

fn reads_journal(name: &str, matches: &ArgMatches<'_>) -> bool {
    match name {
        "asrun" => true,
        "run" => matches.get_str("resume").is_some(),
        _ => false,
    }
}

fn explain<E: Write>(system: &System<'_>, of_journal: bool, err: &mut Told<E>) {
    let sentence = err.sentence(of_journal);
    if err.is_refusal() {
        system.explain(err);
    }
    if let (Some(sentence), true) = (sentence, system.rt.stderr().is_terminal()) {
        let _ = writeln!(err, "  {sentence}");
    }
}

// Help, the version, or why `clap` refuses the arguments.
fn shown(rt: &HostRuntime, error: &clap::Error) -> Result<u8, Failure<'static>> {
    if error.kind() == ErrorKind::OutOfMemory {
        return Err(Failure::Memory);
    }
    match error.print(rt) {
        Ok(()) if error.use_stderr() => Ok(2),
        Ok(()) => Ok(0),
        Err(_) => Err(Failure::Writer),
    }
}

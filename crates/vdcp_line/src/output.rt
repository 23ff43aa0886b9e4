//! Where a log or a capture goes: standard error, or a capture's file.
ghost use Rattle.std.specs.Prelude.{◌≤◌, IfOk, length};

use crate::system::System;
use clap::ArgMatches;
use std::fs::{self, File, OpenFile, OpenOptions};
use std::io::{self, ErrorKind, Stderr, Write};
use std::rt::Clock;
use vdcp_files::{is_same_file, keep_older};
use vdcp_journal::Moment;
use vdcp_log::Screen;
use vdcp_text::{Failure, NameText};

#[derive(Drop)]
pub enum Output<'a> {
    Terminal(Screen<Stderr>),
    Run(Resumable<'a>),
    Capture(Capture<'a>),
}

/// A terminal that first says how to go on with the journal: a run that is ended by Ctrl-C can't say it any more.
#[derive(Drop)]
pub struct Resumable<'a> {
    screen: Screen<Stderr>,
    // Its name, until it was told.
    journal: Option<&'a str>,
}

impl<'a> Resumable<'a> {
    pub fn new(screen: Screen<Stderr>, journal: Option<&'a str>) -> Self {
        Resumable { screen, journal }
    }

    fn write_after_hint(&mut self, bytes: &[u8]) -> io::Result<usize>
        ensures { IfOk result (λ count. count ≤ length bytes.now) }
    {
        if let Some(name) = self.journal.take() {
            let name = NameText(name);
            writeln!(self.screen, "  after Ctrl-C go on with --resume {name}")?;
        }
        self.screen.write(bytes)
    }
}

/// Each row begins with the time at which it is written.
#[derive(Drop)]
pub struct Capture<'a> {
    system: &'a System<'a>,
    file: Screen<File>,
    place: Place,
}

// Where in a row the next byte comes.
#[derive(Clone, Copy, PartialEq, Eq)]
enum Place {
    Start,
    Within,
}

impl Capture<'_> {
    fn write_row(&mut self, bytes: &[u8]) -> io::Result<usize>
        ensures { IfOk result (λ count. count ≤ length bytes.now) }
    {
        if self.place == Place::Start {
            let millis = self.system.since_1970()?.as_millis();
            let now = Moment::of_unix_millis(u64::try_from(millis).unwrap_or(u64::MAX));
            self.file.write_all(now.as_bytes())?;
            self.place = Place::Within;
        }
        let count = self.file.write(bytes)?;
        if bytes[..count].ends_with(b"\n") {
            self.place = Place::Start;
        }
        Ok(count)
    }
}

impl Write for Output<'_> {
    fn write(&mut self, bytes: &[u8]) -> io::Result<usize> {
        match self {
            Output::Terminal(screen) => screen.write(bytes),
            Output::Run(run) => run.write_after_hint(bytes),
            Output::Capture(capture) => capture.write_row(bytes),
        }
    }

    fn flush(&mut self) -> io::Result<()> {
        match self {
            Output::Terminal(screen) => screen.flush(),
            Output::Run(run) => run.screen.flush(),
            Output::Capture(capture) => capture.file.flush(),
        }
    }
}

/// Makes the file that `--capture` names, if it names one; an older one with bytes becomes `FILE.~N~`. The failure is
/// `Exists` if one of the `others` names the same file, `Open` or `Memory`.
pub fn capture_of<'a, 'm>(
    system: &'a System<'_>,
    matches: &'m ArgMatches<'_>,
    others: &[&str],
) -> Result<Option<Output<'a>>, Failure<'m>> {
    let Some(name) = matches.get_str("capture") else {
        return Ok(None);
    };
    for other in others {
        if let Some(other) = matches.get_str(*other) {
            if name == other || is_same_file(system, name, other) {
                return Err(Failure::Exists(name));
            }
        }
    }
    match make_anew(system, name) {
        Ok(file) => Ok(Some(Output::Capture(Capture {
            system,
            file: Screen::new(system, file),
            place: Place::Start,
        }))),
        Err(error) if error.kind() == ErrorKind::OutOfMemory => Err(Failure::Memory),
        Err(_) => Err(Failure::Open(name)),
    }
}

// What is no file, as a pipe, is written to.
fn make_anew(system: &System<'_>, name: &str) -> io::Result<File> {
    match fs::metadata(system, name) {
        Ok(found) if found.is_file() && found.len() > 0 => {
            let _ = OpenOptions::new().write(true).open(system, name)?;
            // (a link stays, and what it names is made anew)
            let whole = fs::canonicalize(system, name)?.into_string();
            if keep_older(system, whole.as_str())?.is_some() {
                fs::remove_file(system, whole.as_str())?;
            }
            File::create_new(system, whole.as_str())
        }
        _ => fs::create(system, name),
    }
}

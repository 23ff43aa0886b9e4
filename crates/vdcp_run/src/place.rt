//! The name of the as-run file, and whether a list can come there.
ghost use Rattle.std.specs.Prelude.{◌≡◌, IfErr, IfOk, Some};
ghost use Rattle.vdcp_run.specs.Run.{IsApart, IsPlaceRefused, IsUnwritten};

use crate::settings::RunSettings;
use std::fs::{self, File, OpenFile, OpenOptions};
use std::io::{self, ErrorKind};
use std::rt::Files;
use vdcp_files::is_same_file;
use vdcp_log::Log;
use vdcp_text::{Failure, NameText};

const MOST_NAMES: u32 = 100;

/// How a list gets a name. A list for a name that is free or taken is written beside, and gets the name once it is whole.
#[derive(Drop)]
pub enum Place {
    Free(String),
    /// An older list has the name; its links are followed.
    Taken(String),
    /// A device, a pipe or a link to nothing has the name, and the list is written to it. No older list is kept.
    Device,
}

impl Place {
    /// Err if no list can get the name: it is a folder's, say, or its file can't be written.
    pub fn of<R: Files + AllocGlobal>(rt: &R, name: &str) -> io::Result<Place> {
        match fs::metadata(rt, name) {
            Ok(found) if found.is_file() => {
                let _ = OpenOptions::new().write(true).open(rt, name)?;
                // (a link stays, and what it names is replaced)
                let whole = fs::canonicalize(rt, name)?;
                Ok(Place::Taken(whole.into_string()))
            }
            Ok(found) if found.is_dir() => Err(io::Error::from(ErrorKind::IsADirectory)),
            Ok(_) => Ok(Place::Device),
            Err(error) if error.kind() == ErrorKind::NotFound => Place::of_no_file(rt, name),
            Err(error) => Err(error),
        }
    }

    fn of_no_file<R: Files + AllocGlobal>(rt: &R, name: &str) -> io::Result<Place> {
        if name.is_empty() {
            return Err(io::Error::from(ErrorKind::NotFound));
        }
        // (a link to nothing stays, and what it names is made)
        if fs::symlink_metadata(rt, name).is_ok() {
            return Ok(Place::Device);
        }
        Ok(Place::Free(String::from_str(rt.alloc(), name)?))
    }
}

/// Proof that the as-run file, if one is named, isn't the playlist or journal. Only `test` makes one.
#[derive(Clone, Copy)]
pub struct Apart<'a> {
    name: Option<&'a str>,
    other: &'a str,
}

impl<'a> Apart<'a> {
    pub fn test<R: Files>(rt: &R, name: Option<&'a str>, other: &'a str) -> Result<Self, &'a str>
        ensures apart { IfOk result (IsApart name.entry other.entry) }
        ensures same { IfErr result (λ same. name.entry ≡ Some same) }
    {
        match name {
            Some(name) if is_same_file(rt, name, other) => Err(name),
            _ => Ok(Apart { name, other }),
        }
    }
}

/// Tests, before anything is sent, that the named as-run file can be made, and isn't the journal.
pub fn test_place<'a, R: Files + AllocGlobal>(
    rt: &R,
    name: Option<&'a str>,
    journal: &'a str,
) -> Result<Apart<'a>, Failure<'a>>
    ensures apart { IfOk result (IsApart name.entry journal.entry) }
    ensures refused { IfErr result (IsPlaceRefused name.entry) }
{
    let apart = match Apart::test(rt, name, journal) {
        Ok(apart) => apart,
        Err(name) => return Err(Failure::Exists(name)),
    };
    let Some(name) = name else {
        return Ok(apart);
    };
    match try_place(rt, name) {
        Ok(()) => Ok(apart),
        Err(error) => Err(not_made(&error, name)),
    }
}

/// Warns, before anything is sent, that the as-run file of a run without a journal can't be made now. The run goes on,
/// since it may be otherwise at its end.
pub fn tell_place<R: Files + AllocGlobal, V: io::Write + Drop>(
    rt: &R,
    settings: RunSettings<'_>,
    log: &Log<V>,
) {
    let (Some(name), None) = (settings.asrun, settings.journal) else {
        return;
    };
    if let Err(error) = try_place(rt, name) {
        let name = NameText(name);
        log.tell_fault(&format_args!("  no as-run file can be made of this run: {name}: {error}"));
    }
}

pub fn not_made<'a>(error: &io::Error, name: &'a str) -> Failure<'a>
    ensures { IsUnwritten name.entry result }
{
    if error.kind() == ErrorKind::OutOfMemory {
        Failure::Memory
    } else {
        Failure::Open(name)
    }
}

pub fn make_beside<R: Files + AllocGlobal>(rt: &R, name: &str) -> io::Result<(R::File, String)> {
    for number in 0..MOST_NAMES {
        let beside = format!(in rt.alloc(); "{name}.new{number}")?;
        match File::create_new(rt, beside.as_str()) {
            Ok(file) => return Ok((file, beside)),
            Err(error) if error.kind() == ErrorKind::AlreadyExists => {}
            Err(error) => return Err(error),
        }
    }
    Err(io::Error::from(ErrorKind::AlreadyExists))
}

fn try_place<R: Files + AllocGlobal>(rt: &R, name: &str) -> io::Result<()> {
    match Place::of(rt, name)? {
        Place::Free(name) | Place::Taken(name) => {
            let (file, beside) = make_beside(rt, name.as_str())?;
            drop(file);
            fs::remove_file(rt, beside.as_str())
        }
        Place::Device => Ok(()),
    }
}

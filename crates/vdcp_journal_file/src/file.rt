//! A journal's file: how it is made, opened and locked.
ghost use Rattle.std.specs.Fs.{new_options, with_append, with_create_new, with_read};
ghost use Rattle.std.specs.Prelude.{◌≡◌, ◌⊎◌, Err, IfErr, IsOk, true};
ghost use Rattle.vdcp_journal_file.specs.Recording.{IsUnopened};
ghost use Rattle.vdcp_text.specs.declared.failure.Failure.TheVariants as failures;

use std::fs::{self, File, OpenFile, OpenOptions, TryLockError};
use std::io::{self, ErrorKind};
use std::path::Path;
use std::rt::Files;
use vdcp_text::Failure;

// A file that can't be locked is removed again.
pub(crate) fn make<'a, R: Files<File = File>>(rt: &R, name: &'a str) -> Result<File, Failure<'a>>
    ensures { IfErr result (λ failure. (failure ≡ failures.Exists name.entry) ⊎ IsUnopened name.entry failure) }
{
    let file = match new_file().open(rt, name) {
        Ok(file) => file,
        Err(error) if error.kind() == ErrorKind::AlreadyExists => return Err(Failure::Exists(name)),
        Err(error) => return Err(not_opened(&error, name)),
    };
    let locked = locked(file, name);
    if locked.is_err() {
        let _ = fs::remove_file(rt, name);
    }
    locked
}

pub(crate) fn open<'a, R: Files<File = File>>(rt: &R, name: &'a str) -> Result<File, Failure<'a>>
    ensures { IfErr result (IsUnopened name.entry) }
{
    match older_file().open(rt, name) {
        Ok(file) => locked(file, name),
        Err(error) => Err(not_opened(&error, name)),
    }
}

fn new_file() -> OpenOptions
    ensures { result ≡ with_create_new (with_append new_options true) true }
{
    let mut options = OpenOptions::new();
    options.append(true).create_new(true);
    options
}

fn older_file() -> OpenOptions
    ensures { result ≡ with_append (with_read new_options true) true }
{
    let mut options = OpenOptions::new();
    options.read(true).append(true);
    options
}

// The system unlocks the file when the run ends, also if it is killed.
fn locked<'a>(file: File, name: &'a str) -> Result<File, Failure<'a>>
    ensures { IfErr result (IsUnopened name.entry) }
{
    tell_lock(file.try_lock(), name)?;
    Ok(file)
}

fn tell_lock<'a>(locked: Result<(), TryLockError>, name: &'a str) -> Result<(), Failure<'a>>
    ensures locked { IsOk result → IsOk locked }
    ensures in_use { locked ≡ Err TryLockError.WouldBlock → result ≡ Err (failures.InUse name.entry) }
    ensures unlocked { IfErr result (IsUnopened name.entry) }
{
    match locked {
        Ok(()) => Ok(()),
        Err(TryLockError::WouldBlock) => Err(Failure::InUse(name)),
        Err(TryLockError::Error(error)) => Err(not_opened(&error, name)),
    }
}

fn not_opened<'a>(error: &io::Error, name: &'a str) -> Failure<'a>
    ensures { IsUnopened name.entry result }
{
    if error.kind() == ErrorKind::OutOfMemory {
        Failure::Memory
    } else {
        Failure::Open(name)
    }
}

/// Makes a file's name safe, if the system can sync a folder.
pub fn sync_folder<R: Files>(rt: &R, name: &str) {
    let folder = match Path::new(name).parent() {
        Some(folder) if !folder.as_str().is_empty() => folder,
        _ => Path::new("."),
    };
    if let Ok(folder) = File::open(rt, folder) {
        let _ = folder.sync_all();
    }
}

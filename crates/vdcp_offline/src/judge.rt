//! The subcommand `judge`: a capture is held against the rule book.
//!
//! Only the bytes of the capture count, so it judges any automation. They are read line by line and not held.
//!
//! Files, in reading order: `settings`, `capture`, `findings`, `told`.
ghost use Rattle.std.specs.Io.KnownBytes.{Appends, Keeps};
ghost use Rattle.std.specs.Prelude.{◌≡◌, ◌≢◌, ◌⊎◌, IfErr, IfOk, OnOk};
ghost use Rattle.vdcp_offline.specs.Judged.{AreWhole, IsJudged, IsToldOnly};
ghost use Rattle.vdcp_files.specs.Files.{file};
ghost use Rattle.vdcp_text.specs.Subcommand.{Counted, IsSubcommand};
ghost use Rattle.vdcp_text.specs.Failure.{status_of};
ghost use Rattle.vdcp_text.specs.declared.failure.Failure.TheVariants as failures;

use crate::judge::capture::read_capture;
use crate::judge::findings::Found;
use std::alloc::Global;
use std::io;
use vdcp_files::NamedFile;
use vdcp_text::Failure;

mod capture;
mod findings;
mod settings;
mod told;

pub use settings::JudgeSettings;

/// Holds the exchanges of a capture against the rule book, for an automation that plays this list. `out` gets a line for
/// each command that wasn't allowed where it stands, and for each event that the exchanges show to be aired; then how many
/// exchanges, forbidden commands and reported events there are. Then it is flushed.
///
/// The status is 0 if no command was forbidden, and 1 if one was. It is also 1 if a row or line is refused or the capture
/// has no message, and 3 if a file can't be read or memory was refused: then `err` gets one line, and `out` nothing. The
/// list is read first. It is 3 if a writer failed, which gets nothing more.
pub fn do_judge<L: io::Read + Drop, C: io::Read + Drop, W: io::Write, E: io::Write>(
    alloc: Global,
    list: NamedFile<'_, L>,
    capture: NamedFile<'_, C>,
    settings: JudgeSettings,
    out: &mut W,
    err: &mut E,
) -> u8
    ensures { let l = file list.entry.name (L.remaining list.entry.reader) in
        let c = C.remaining capture.entry.reader in
        IsSubcommand (λ good old new. Counted (IsJudged settings l c old new) good) IsToldOnly (AreWhole settings l c)
        (W.contents out.old) (W.contents out.new) (E.contents err.old) (E.contents err.new) result }
{
    match judge(alloc, list, capture, settings, out) {
        Ok(0) => 0,
        Ok(_) => 1,
        Err(failure) => failure.report(err),
    }
}

fn judge<'a, L: io::Read + Drop, C: io::Read + Drop, W: io::Write>(
    alloc: Global,
    list: NamedFile<'a, L>,
    capture: NamedFile<'a, C>,
    settings: JudgeSettings,
    out: &mut W,
) -> Result<usize, Failure<'a>>
    ensures judged { IfOk result (IsJudged settings (file list.entry.name (L.remaining list.entry.reader))
        (C.remaining capture.entry.reader) (W.contents out.old) (W.contents out.new)) }
    ensures untold { IfErr result (λ f. f ≢ failures.Writer → Keeps (W.contents out.old) (W.contents out.new)) }
    ensures silent { Keeps (W.contents out.old) (W.contents out.new)
        ⊎ AreWhole settings (file list.entry.name (L.remaining list.entry.reader)) (C.remaining capture.entry.reader) }
    ensures statuses { IfErr result (λ f. status_of f ≢ 2) }
{
    let events = list.read_list(alloc, settings.rate)?;
    let name = capture.name;
    let mut found = Found::new(alloc, &events, settings);
    read_capture(alloc, capture, settings.unit, &mut found)?;
    if !found.has_message {
        return Err(Failure::Empty(name));
    }
    let told = found.end()?;
    let forbidden = told.forbidden;
    let text = told.text()?;
    match write(text.as_bytes(), out) {
        Ok(()) => Ok(forbidden),
        Err(_) => Err(Failure::Writer),
    }
}

fn write<W: io::Write>(bytes: &[u8], out: &mut W) -> io::Result<()>
    ensures { OnOk result (Appends (W.contents out.old) (W.contents out.new) bytes.now) }
{
    out.write_all(bytes)?;
    out.flush()
}

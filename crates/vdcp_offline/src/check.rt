//! The subcommand `check`: which events a catalogue's clips can't play.
ghost use Rattle.std.specs.Io.KnownBytes.{Keeps};
ghost use Rattle.std.specs.Prelude.{◌≡◌, ◌≢◌, ◌⊎◌, IfErr, IfOk, if◌then◌else◌};
ghost use Rattle.vdcp_files.specs.Files.{file};
ghost use Rattle.vdcp_text.specs.Subcommand.{IsSubcommand};
ghost use Rattle.vdcp_offline.specs.Check.{AreWhole, IsChecked, IsRefused, IsUnchecked};
ghost use Rattle.vdcp_text.specs.Failure.{status_of};

use std::alloc::Global;
use std::io;
use vdcp_files::{NamedFile, write_findings};
use vdcp_text::Failure;
use vdcp_value::Rate;

/// Checks a playlist against a catalogue. `out` gets how many events and clips there are, and a line for each event whose
/// clip the catalogue doesn't have, or whose part doesn't fit its clip. Then it is flushed.
///
/// The status is 0 if all events can be played, and 1 if one can't. It is also 1 if a row is refused, and 3 if a file
/// can't be read or memory was refused: then `err` gets one line, and `out` nothing. The list is read first. It is 3 if a
/// writer failed, which gets nothing more.
pub fn do_check<L: io::Read + Drop, C: io::Read + Drop, W: io::Write, E: io::Write>(
    alloc: Global,
    list: NamedFile<'_, L>,
    catalogue: NamedFile<'_, C>,
    rate: Rate,
    out: &mut W,
    err: &mut E,
) -> u8
    ensures { let l = file list.entry.name (L.remaining list.entry.reader) in
        let c = file catalogue.entry.name (C.remaining catalogue.entry.reader) in
        IsSubcommand (λ playable old new. IsChecked rate l c old new playable) (IsRefused rate l c) (AreWhole rate l c)
        (W.contents out.old) (W.contents out.new) (E.contents err.old) (E.contents err.new) result }
{
    match check(alloc, list, catalogue, rate, out) {
        Ok(playable) => status_for(playable),
        Err(failure) => failure.report(err),
    }
}

fn status_for(playable: bool) -> u8
    ensures { result ≡ (if playable then 0 else 1) }
{
    if playable { 0 } else { 1 }
}

fn check<'a, L: io::Read + Drop, C: io::Read + Drop, W: io::Write>(
    alloc: Global,
    list: NamedFile<'a, L>,
    catalogue: NamedFile<'a, C>,
    rate: Rate,
    out: &mut W,
) -> Result<bool, Failure<'a>>
    ensures checked { IfOk result (IsChecked rate (file list.entry.name (L.remaining list.entry.reader))
        (file catalogue.entry.name (C.remaining catalogue.entry.reader))
        (W.contents out.old) (W.contents out.new)) }
    ensures unchecked { IfErr result
        (IsUnchecked rate (file list.entry.name (L.remaining list.entry.reader))
        (file catalogue.entry.name (C.remaining catalogue.entry.reader))
        (W.contents out.old) (W.contents out.new)) }
    ensures silent { Keeps (W.contents out.old) (W.contents out.new)
        ⊎ AreWhole rate (file list.entry.name (L.remaining list.entry.reader))
        (file catalogue.entry.name (C.remaining catalogue.entry.reader)) }
    ensures statuses { IfErr result (λ e. status_of e ≢ 2) }
{
    let events = list.read_list(alloc, rate)?;
    let clips = catalogue.read_catalogue(alloc, rate)?;
    write_findings(&events, &clips, clips.len(), out).map_err(|_| Failure::Writer)
}

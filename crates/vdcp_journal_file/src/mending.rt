//! What a killed run left undone in its journal, which is done before anything goes on.
ghost use Rattle.std.specs.Fmt.{option_append};
ghost use Rattle.std.specs.Io.KnownBytes.{Appends, Keeps};
ghost use Rattle.std.specs.Prelude.{◌≡◌, ◌<◌, ◌≤◌, ◌⊎◌, ◌++◌, [], IfErr, IfOk, IfSome, IsTrue, OnOk, Some, length, option_map, take};
ghost use Rattle.vdcp_auto.specs.Plan.{plan_of};
ghost use Rattle.vdcp_auto.specs.Snapshots.{CanStand, state_in, view_of};
ghost use Rattle.vdcp_journal.specs.Mending.{mended_at, rows_at};
ghost use Rattle.vdcp_journal.specs.Reading.{whole_lines};
ghost use Rattle.vdcp_journal.specs.Rows.{rows_text};
ghost use Rattle.vdcp_journal.specs.Times.{moment_text, no_clock};
ghost use Rattle.vdcp_journal.specs.declared.moment.Moment.{Moment};
ghost use Rattle.vdcp_list.specs.Rests.{items_left};
ghost use Rattle.vdcp_list.specs.Rows.{FileBytes};
ghost use Rattle.vdcp_journal_file.specs.Disks.{HasJust};
ghost use Rattle.vdcp_journal_file.specs.Mending.{IsHeaded, IsMended, lines_of};
ghost use Rattle.vdcp_journal_file.specs.Recording.{IsUnwritten};
ghost use Rattle.vdcp_journal_file.specs.Resuming.{Continues, IsUnread, IsUnresumed};
ghost use Rattle.vdcp_journal_file.specs.Torn.{closed};

use crate::disk::{ReadableDisk, append_safely};
use crate::pending::RecordFault;
use crate::reading::{LastRun, replay};
use crate::recorder::heading_text;
use crate::resume::{reader_of, replay_file};
use crate::torn::{Closing, lacks_feed};
use std::alloc::{AllocError, Global};
use std::io::{self, ErrorKind, Read};
use std::rt::Clock;
use vdcp_auto::{Controller, Source};
use vdcp_journal::{Heading, Moment, Note, Row, WholeLines, mended, size_of_lines, write_row};
use vdcp_list::Rest;
use vdcp_text::Failure;

/// Writes the first row if it was torn: nothing was sent then.
pub(crate) fn mend_heading<'a, R: Clock + AllocGlobal, F: ReadableDisk>(
    rt: &R,
    name: &'a str,
    wanted: &Heading,
    file: &mut F,
) -> Result<(), Failure<'a>>
    ensures headed { OnOk result (IsHeaded wanted.now (F.written file.old) (F.written file.new)) }
    ensures unmended { IfErr result (λ failure. IsUnread name.entry failure ⊎ IsUnwritten name.entry failure) }
{
    let row = match heading_text(rt, wanted) {
        Ok(row) => row,
        Err(fault) => return Err(fault.failure(name)),
    };
    let mut text = Vec::new(rt.alloc());
    let mut front = reader_of(name, file)?.take(row.len() as u64);
    match front.read_to_end(&mut text) {
        Ok(_) => {}
        Err(error) => return Err(not_read(name, &error)),
    }
    if is_torn(text.as_slice(), row.as_slice()) {
        return replace_from(name, 0, row.as_slice(), file);
    }
    Ok(())
}

// A row that may have put a clip to air counts, though its line feed is lacking. `size` is that of the lines with it.
fn close_row<'a, F: ReadableDisk>(
    name: &'a str,
    size: usize,
    file: &mut F,
) -> Result<(), Failure<'a>>
    requires { IfSome (option_map closed (F.written file.old)) (λ bytes. size ≡ length (whole_lines bytes)) }
    ensures closed { OnOk result (Keeps (option_map closed (F.written file.old)) (F.written file.new)) }
    ensures unclosed { IfErr result (λ failure. IsUnread name.entry failure ⊎ IsUnwritten name.entry failure) }
{
    match file.size() {
        Ok(written) if size as u64 <= written => return Ok(()),
        Ok(_) => {}
        Err(error) => return Err(not_read(name, &error)),
    }
    match append_safely(file, b"\n") {
        Ok(()) => Ok(()),
        Err(_) => Err(Failure::Write(name)),
    }
}

pub(crate) fn not_read<'a>(name: &'a str, error: &io::Error) -> Failure<'a>
    ensures { IsUnread name.entry result }
{
    match error.kind() {
        ErrorKind::OutOfMemory => Failure::Memory,
        _ => Failure::Read(name),
    }
}

const TIME: usize = 24;

// Whether the text is the beginning of this row, with any time, and no row that counts.
fn is_torn(text: &[u8], row: &[u8]) -> bool
    ensures few { IsTrue result → length text.now < length row.now }
    ensures torn { IsTrue result → whole_lines (closed text.now) ≡ [] }
{
    if text.contains(&b'\n') || lacks_feed(text) {
        return false;
    }
    text.len() < row.len() && begins(text, row)
}

fn begins(text: &[u8], row: &[u8]) -> bool
    requires { length text.now ≤ length row.now }
{
    for k in 0..text.len() {
        let digits = k < TIME && text[k].is_ascii_digit() && row[k].is_ascii_digit();
        if text[k] != row[k] && !digits {
            return false;
        }
    }
    true
}

/// Adds the rows that a killed run may lack (`mended`), and gives the run that goes on from all rows. If no run goes on,
/// nothing is written.
pub(crate) fn mend_end<'a, 's, R: Clock + AllocGlobal, S: Source, F: ReadableDisk>(
    rt: &R,
    name: &'a str,
    wanted: &Heading,
    source: &'s S,
    file: &mut F,
) -> Result<LastRun<'s, S>, Failure<'a>>
    requires unit { wanted.now.unit ≤ 15 }
    requires some { 1 ≤ wanted.now.limit }
    requires few { wanted.now.limit ≤ 1000 }
    ensures mended { IfOk result (λ r. (lines : FileBytes)
        × IsMended (S.items source.now) wanted.now (lines_of (F.written file.old)) lines
        × HasJust F.safe F.written lines file.new
        × Continues (λ s. S.items s.now) wanted.now (S.items source.now) lines r) }
    ensures unmended { IfErr result (IsUnresumed (S.items source.now) name.entry wanted.now) }
{
    let alloc = rt.alloc();
    let run = replay_file(alloc, name, wanted, source, file)?;
    let rows = match text_of(alloc, wanted.unit, &run) {
        Ok(rows) => rows,
        Err(fault) => return Err(fault.failure(name)),
    };
    // (the rows are read before they are written: what nothing goes on from would be there for good)
    let run = with_rows(alloc, name, wanted, source, file, run, rows.as_slice())?;
    end_with(alloc, name, file, rows.as_slice())?;
    Ok(run)
}

fn with_rows<'a, 's, S: Source, F: ReadableDisk>(
    alloc: Global,
    name: &'a str,
    wanted: &Heading,
    source: &'s S,
    file: &F,
    run: LastRun<'s, S>,
    rows: &[u8],
) -> Result<LastRun<'s, S>, Failure<'a>>
    requires some { 1 ≤ wanted.now.limit }
    requires few { wanted.now.limit ≤ 1000 }
    ensures on { Continues (λ s. S.items s.now) wanted.now (S.items source.now) (lines_of (F.written file.now)) run.entry
        → whole_lines rows.now ≡ rows.now → IfOk result (Continues (λ s. S.items s.now) wanted.now (S.items source.now)
        (option_append (lines_of (F.written file.now)) (Some rows.now))) }
    ensures unresumed { IfErr result (IsUnresumed (S.items source.now) name.entry wanted.now) }
{
    if rows.is_empty() {
        return Ok(run);
    }
    let Ok(lines) = WholeLines::new(alloc, Closing::new(reader_of(name, file)?)) else {
        return Err(Failure::Memory);
    };
    replay(alloc, name, lines.chain(rows), wanted, source)
}

fn whole_size<'a, F: ReadableDisk>(
    alloc: Global,
    name: &'a str,
    file: &F,
) -> Result<usize, Failure<'a>>
    ensures size { IfOk result (λ size. IfSome (option_map closed (F.written file.now))
        (λ bytes. size ≡ length (whole_lines bytes))) }
    ensures unread { IfErr result (IsUnread name.entry) }
{
    let reader = Closing::new(reader_of(name, file)?);
    match size_of_lines(alloc, reader) {
        Ok(size) => Ok(size),
        Err(error) => Err(not_read(name, &error)),
    }
}

/// Adds rows to the whole lines of a file, and makes all safe. A last row that lacks only its line feed, and may have put a
/// clip to air, gets that; any other torn one is cut off.
pub(crate) fn end_with<'a, F: ReadableDisk>(
    alloc: Global,
    name: &'a str,
    file: &mut F,
    rows: &[u8],
) -> Result<(), Failure<'a>>
    ensures ends { OnOk result (HasJust F.safe F.written (option_append (lines_of (F.written file.old)) (Some rows.now))
        file.new) }
    ensures unended { IfErr result (λ failure. IsUnread name.entry failure ⊎ IsUnwritten name.entry failure) }
{
    let size = whole_size(alloc, name, file)?;
    close_row(name, size, file)?;
    replace_from(name, size, rows, file)
}

fn notes_of<S: Source>(alloc: Global, run: &LastRun<'_, S>) -> Result<Vec<Note>, AllocError>
    requires { CanStand (length (items_left (λ s. S.items s.now) run.now.controller.source)) run.now.stood }
    ensures { IfOk result (λ notes. notes.items ≡ mended_at
        (plan_of (items_left (λ s. S.items s.now)) (view_of run.now.controller.source run.now.stood))
        (state_in run.now.stood) run.now.last_note run.now.heard) }
{
    let rest = run.controller.source();
    let controller = Controller::of_snapshot(Rest::new(*rest.whole(), rest.from()), &run.stood);
    mended(alloc, controller, run.last_note, run.heard)
}

// No clock gives the time of these rows: what they say was inferred, not seen.
fn text_of<S: Source>(alloc: Global, unit: u8, run: &LastRun<'_, S>) -> Result<Vec<u8>, RecordFault>
    requires unit { unit ≤ 15 }
    requires can_stand { CanStand (length (items_left (λ s. S.items s.now) run.now.controller.source)) run.now.stood }
    ensures { IfOk result (λ text. (time : Moment) × (moment_text time ≡ no_clock)
        × (text.items ≡ rows_text unit (rows_at time (mended_at
        (plan_of (items_left (λ s. S.items s.now)) (view_of run.now.controller.source run.now.stood))
        (state_in run.now.stood) run.now.last_note run.now.heard)))) }
{
    let notes = notes_of(alloc, run)?;
    let mut text = Vec::new(alloc);
    add_rows(
        alloc,
        unit,
        Moment::unclocked(),
        notes.as_slice(),
        &mut text,
    )?;
    Ok(text)
}

fn add_rows(
    alloc: Global,
    unit: u8,
    time: Moment,
    notes: &[Note],
    text: &mut Vec<u8>,
) -> Result<(), RecordFault>
    requires { unit ≤ 15 }
    ensures { OnOk result (text.new.items ≡ text.old.items ++ rows_text unit (rows_at time notes.now)) }
{
    match notes {
        [] => Ok(()),
        [note, rest @ ..] => {
            write_row(alloc, unit, &Row { time, note: *note }, None, text)?;
            add_rows(alloc, unit, time, rest, text)
        }
    }
}

fn replace_from<'a, F: ReadableDisk>(
    name: &'a str,
    size: usize,
    text: &[u8],
    file: &mut F,
) -> Result<(), Failure<'a>>
    ensures replaced { OnOk result (Appends (option_map (take size) (F.written file.old)) (F.written file.new) text.now) }
    ensures synced { OnOk result (F.safe file.new ≡ F.written file.new) }
    ensures unwritten { IfErr result (IsUnwritten name.entry) }
{
    if file.cut_after(size as u64).is_ok() && append_safely(file, text).is_ok() {
        Ok(())
    } else {
        Err(RecordFault::Device.failure(name))
    }
}

//! The subcommand `asrun`: the as-run list that a journal shows.
ghost use Rattle.std.specs.Io.KnownBytes.{Appends, Keeps};
ghost use Rattle.std.specs.Prelude.{◌≡◌, ◌≢◌, ◌⊎◌, ◌≤◌, ◌<◌, ◌+◌, ◌^◌, ◌∷◌, ◌++◌, List, [], None, Some, IfErr, IfOk, IfSome, OnOk, length, option_map};
ghost use Rattle.vdcp_files.specs.Files.{file};
ghost use Rattle.vdcp_journal.specs.Reading.{whole_lines};
ghost use Rattle.vdcp_journal.specs.Runs.{Run};
ghost use Rattle.vdcp_journal.specs.declared.row.Heading.{Heading};
ghost use Rattle.vdcp_journal_file.specs.Resuming.{RunsShow, next_begin};
ghost use Rattle.vdcp_journal_file.specs.Showing.{IsAsrunOf, IsShown, IsShownAndTold, IsToldOnly, ShowsJournal, ShowsOneMore, digest_of, heading_text, left_unsure, open_text, reported_text, skipped_text, undecided};
ghost use Rattle.vdcp_journal_file.specs.Torn.{closed};
ghost use Rattle.vdcp_journal_file.specs.declared.reading.Refusal.TheVariants as refusals;
ghost use Rattle.vdcp_text.specs.Failure.{status_of};
ghost use Rattle.vdcp_text.specs.declared.failure.Failure.TheVariants as failures;
ghost use Rattle.vdcp_text.specs.declared.failure.JournalFault.TheVariants as faults;
ghost use Rattle.vdcp_value.specs.declared.part.Item.{Item};

use crate::named::events_in;
use crate::reading::{Refusal, RunAirings, read_refusal, refusal_of, runs_in};
use crate::skipped::{Skipped, is_left_out, reasons, why_skipped};
use crate::torn::Closing;
use std::alloc::Global;
use std::fs::File;
use std::io::{self, ErrorKind, Write};
use std::rt::Files;
use vdcp_auto::{ListCall, Source};
use vdcp_files::NamedFile;
use vdcp_journal::{Airing, Heading, JournalRows, WholeLines, digest_of};
use vdcp_list::{write_events, write_timed_events, write_timed_heading};
use vdcp_text::{Failure, JournalFault};
use vdcp_value::Rate;

#[derive(Clone, Copy, Debug)]
pub struct AsrunSettings {
    pub rate: Rate,
    /// Whether the list says of each event when it aired, and of each that was left out why.
    pub times: bool,
}

/// Prints the as-run list that a journal of this list shows, run by run. If times are wanted, each event has its times, and
/// one that was left out between two runs has a row, too. A torn last row counts only if it lacks just its line feed and may
/// have put a clip to air. The list is read first.
///
/// The status is 0 if it is printed, 1 if a row is refused or the list isn't the journal's, and 3 if a file can't be read,
/// memory was refused or a writer failed. `err` gets one line of each failure but a writer's; with status 0 it gets one of
/// each run whose next event may have aired, unless the run after it begins with that event or a later one. Of a run that
/// begins with that event it is told until the run reports it.
pub fn do_asrun<J: io::Read + Drop, L: io::Read + Drop, W: io::Write, E: io::Write>(
    alloc: Global,
    journal: NamedFile<'_, J>,
    list: NamedFile<'_, L>,
    settings: AsrunSettings,
    out: &mut W,
    err: &mut E,
) -> u8
    ensures shown { result ≡ 0 → IsShownAndTold settings (Some (file list.entry.name (L.remaining list.entry.reader)))
        (file journal.entry.name (J.remaining journal.entry.reader)) (W.contents out.old) (W.contents out.new)
        (E.contents err.old) (E.contents err.new) }
    ensures refused { result ≡ 1 →
        IsToldOnly (W.contents out.old) (W.contents out.new) (E.contents err.old) (E.contents err.new) }
    ensures statuses { (result < 2) ⊎ (result ≡ 3) }
{
    match print_listed(alloc, journal, list, settings, out) {
        Ok(told) => tell(told.as_slice(), err),
        Err(failure) => failure.report(err),
    }
}

/// Prints the same without the list: the journal's own cues say what was played. `cues` reads the journal a second time,
/// and is read first.
pub fn do_asrun_by_cues<J: io::Read + Drop, C: io::Read + Drop, W: io::Write, E: io::Write>(
    alloc: Global,
    journal: NamedFile<'_, J>,
    cues: C,
    settings: AsrunSettings,
    out: &mut W,
    err: &mut E,
) -> u8
    ensures shown { result ≡ 0 → IsShownAndTold settings None
        (file journal.entry.name (J.remaining journal.entry.reader)) (W.contents out.old) (W.contents out.new)
        (E.contents err.old) (E.contents err.new) }
    ensures refused { result ≡ 1 →
        IsToldOnly (W.contents out.old) (W.contents out.new) (E.contents err.old) (E.contents err.new) }
    ensures statuses { (result < 2) ⊎ (result ≡ 3) }
{
    match print_named(alloc, journal, cues, settings, out) {
        Ok(told) => tell(told.as_slice(), err),
        Err(failure) => failure.report(err),
    }
}

/// The text that `do_asrun` prints of these events and the journal of this name, which another run may be writing.
pub fn asrun_of_journal<'a, R: Files + AllocGlobal, S: Source>(
    rt: &R,
    name: &'a str,
    events: &S,
    rate: Rate,
) -> Result<Vec<u8>, Failure<'a>>
    ensures { IfOk result (λ text. IsAsrunOf rate (S.items events.now) text.items) }
{
    let reader = match File::open(rt, name) {
        Ok(file) => file,
        Err(error) if error.kind() == ErrorKind::OutOfMemory => return Err(Failure::Memory),
        Err(_) => return Err(Failure::Open(name)),
    };
    let settings = AsrunSettings { rate, times: false };
    match shown_in(rt.alloc(), reader, events, settings, None) {
        Ok(shown) => Ok(shown.text),
        Err(refusal) => Err(refusal.failure(name)),
    }
}

fn tell<E: io::Write>(told: &[u8], err: &mut E) -> u8
    ensures told { result ≡ 0 → Appends (E.contents err.old) (E.contents err.new) told.now }
    ensures statuses { (result ≡ 0) ⊎ (result ≡ 3) }
{
    match err.write_all(told) {
        Ok(()) => 0,
        Err(_) => 3,
    }
}

fn print_listed<'a, J: io::Read + Drop, L: io::Read + Drop, W: io::Write>(
    alloc: Global,
    journal: NamedFile<'a, J>,
    list: NamedFile<'a, L>,
    settings: AsrunSettings,
    out: &mut W,
) -> Result<Vec<u8>, Failure<'a>>
    ensures shown { IfOk result (λ told. IsShown settings
        (Some (file list.entry.name (L.remaining list.entry.reader)))
        (file journal.entry.name (J.remaining journal.entry.reader)) (W.contents out.old) (W.contents out.new)
        told.items) }
    ensures silent { IfErr result (λ f. f ≢ failures.Writer → Keeps (W.contents out.old) (W.contents out.new)) }
    ensures statuses { IfErr result (λ f. status_of f ≢ 2) }
{
    let list_name = list.name;
    let events = list.read_list(alloc, settings.rate)?;
    // (each part of a list was read at this rate)
    let Ok(digest) = digest_of(alloc, &events, settings.rate) else {
        return Err(Failure::Memory);
    };
    let NamedFile { name, reader } = journal;
    match shown_in(alloc, reader, &events, settings, Some(digest)) {
        Ok(shown) => print_out(shown, out),
        Err(Refusal::Row(1, JournalFault::List)) => Err(Failure::NotTheList(list_name)),
        Err(refusal) => Err(refusal.failure(name)),
    }
}

fn print_named<'a, J: io::Read + Drop, C: io::Read + Drop, W: io::Write>(
    alloc: Global,
    journal: NamedFile<'a, J>,
    cues: C,
    settings: AsrunSettings,
    out: &mut W,
) -> Result<Vec<u8>, Failure<'a>>
    ensures shown { IfOk result (λ told. IsShown settings None
        (file journal.entry.name (J.remaining journal.entry.reader)) (W.contents out.old) (W.contents out.new)
        told.items) }
    ensures silent { IfErr result (λ f. f ≢ failures.Writer → Keeps (W.contents out.old) (W.contents out.new)) }
    ensures statuses { IfErr result (λ f. status_of f ≢ 2) }
{
    let NamedFile { name, reader } = journal;
    let events = match events_in(alloc, settings.rate, cues) {
        Ok(events) => events,
        Err(refusal) => return Err(refusal.failure(name)),
    };
    match shown_in(alloc, reader, &events, settings, None) {
        Ok(shown) => print_out(shown, out),
        Err(refusal) => Err(refusal.failure(name)),
    }
}

#[derive(Drop)]
struct Shown {
    text: Vec<u8>,
    // What standard error gets of the events that may have aired.
    told: Vec<u8>,
    // The event that may have aired, of which no run so far decides that.
    unsure: Option<usize>,
}

// `digest` is that of the list of which the journal has to be.
fn shown_in<S: Source, J: io::Read + Drop>(
    alloc: Global,
    reader: J,
    events: &S,
    settings: AsrunSettings,
    digest: Option<[u8; 32]>,
) -> Result<Shown, Refusal>
    ensures { IfOk result (λ shown. ShowsJournal settings (S.items events.now) digest
        (option_map whole_lines (option_map closed (J.remaining reader))) shown.text.items shown.told.items) }
{
    let Ok(mut lines) = WholeLines::new(alloc, Closing::new(reader)) else {
        return Err(Refusal::Memory);
    };
    match shown_by(alloc, &mut lines, events, settings, digest) {
        Ok(shown) => Ok(shown),
        Err(refusal) => Err(refusal_of(lines.long_line(), refusal)),
    }
}

fn shown_by<S: Source, I: io::Read + Drop>(
    alloc: Global,
    lines: I,
    events: &S,
    settings: AsrunSettings,
    digest: Option<[u8; 32]>,
) -> Result<Shown, Refusal>
    ensures { IfOk result (λ shown. ShowsJournal settings (S.items events.now) digest (I.remaining lines)
        shown.text.items shown.told.items) }
{
    let mut rows = match JournalRows::begin(alloc, lines) {
        Ok(rows) => rows,
        Err(fault) => return Err(read_refusal(fault)),
    };
    let heading = rows.heading;
    expect(&heading, digest)?;
    let found = runs_in(alloc, &mut rows, &heading, events)?;
    let mut shown = heading_shown(alloc, events, settings)?;
    let calls = found.calls.as_slice();
    let mut rest = found.runs.as_slice();
    while let [run, behind @ ..] = rest {
        add_run(alloc, run, behind, calls, events, settings, &mut shown)?;
        rest = behind;
    }
    Ok(shown)
}

// A controller has a limit of 1 to 1,000.
fn expect(heading: &Heading, digest: Option<[u8; 32]>) -> Result<(), Refusal>
    ensures some { OnOk result (1 ≤ heading.now.limit) }
    ensures few { OnOk result (heading.now.limit ≤ 1000) }
    ensures digest { OnOk result (IfSome digest (λ digest. heading.now.digest ≡ digest)) }
    ensures refused { IfErr result (λ why. (why ≡ refusals.Row 1 faults.List)
        ⊎ ((why ≡ refusals.Row 1 faults.Limit) × ((heading.now.limit < 1) ⊎ (1000 < heading.now.limit)))) }
{
    match digest {
        Some(digest) if digest != heading.digest => return Err(Refusal::Row(1, JournalFault::List)),
        _ => {}
    }
    if heading.limit < 1 || heading.limit > 1000 {
        return Err(Refusal::Row(1, JournalFault::Limit));
    }
    Ok(())
}

// `behind` are the runs after it, and `calls` what the journal says of the list.
fn add_run<S: Source>(
    alloc: Global,
    run: &RunAirings,
    behind: &[RunAirings],
    calls: &[ListCall],
    events: &S,
    settings: AsrunSettings,
    shown: &mut Shown,
) -> Result<(), Refusal>
    requires { (heading : Heading) × (of : Run) × (runs : List Run)
        × RunsShow (S.items events.now) heading (of ∷ runs) (run.now ∷ behind.now) }
    ensures { (heading : Heading) (of : Run) (runs : List Run)
        → RunsShow (S.items events.now) heading (of ∷ runs) (run.now ∷ behind.now)
        → OnOk result (ShowsOneMore settings (S.items events.now) heading calls.now of runs shown.old shown.new) }
{
    let (first, outcome) = run.ended?;
    let next = next_begin(behind);
    let airings = run.airings.as_slice();
    let unsure = left_unsure(shown.unsure, run.from, airings.len(), run.unsettled);
    let why = why_skipped(unsure, is_left_out(calls, first), outcome);
    add_reported(alloc, events, run.from, airings, settings, &mut shown.text)?;
    add_skipped(alloc, events, next, first, why, settings, &mut shown.text)?;
    add_event(run.begin, undecided(next, unsure), &mut shown.told)?;
    shown.unsure = unsure;
    Ok(())
}

// The event with which the next run begins.
fn next_begin(behind: &[RunAirings]) -> Option<usize>
    ensures { (items : List Item) (heading : Heading) (runs : List Run) → RunsShow items heading runs behind.now
        → result ≡ next_begin runs }
{
    match behind {
        [next, ..] => Some(next.from),
        [] => None,
    }
}

fn print_out<'a, W: io::Write>(shown: Shown, out: &mut W) -> Result<Vec<u8>, Failure<'a>>
    ensures written { OnOk result (Appends (W.contents out.old) (W.contents out.new) shown.text.items) }
    ensures told { IfOk result (λ told. told.items ≡ shown.told.items) }
    ensures failed { IfErr result (λ f. f ≡ failures.Writer) }
{
    let Shown { text, told, .. } = shown;
    if out.write_all(text.as_slice()).is_err() || out.flush().is_err() {
        return Err(Failure::Writer);
    }
    Ok(told)
}

fn heading_shown<S: Source>(
    alloc: Global,
    events: &S,
    settings: AsrunSettings,
) -> Result<Shown, Refusal>
    ensures text { IfOk result (λ shown. shown.text.items ≡ heading_text settings (S.items events.now)) }
    ensures told { IfOk result (λ shown. shown.told.items ≡ []) }
    ensures unsure { IfOk result (λ shown. shown.unsure ≡ None) }
{
    let mut text = Vec::new(alloc);
    if settings.times && write_timed_heading(alloc, events, &mut text).is_err() {
        return Err(Refusal::Memory);
    }
    Ok(Shown {
        text,
        told: Vec::new(alloc),
        unsure: None,
    })
}

fn add_reported<S: Source>(
    alloc: Global,
    events: &S,
    from: usize,
    airings: &[Airing],
    settings: AsrunSettings,
    text: &mut Vec<u8>,
) -> Result<(), Refusal>
    requires { from + length airings.now ≤ length (S.items events.now) }
    ensures text { OnOk result (text.new.items ≡ text.old.items
        ++ reported_text settings (S.items events.now) from (length airings.now) airings.now) }
    ensures memory { IfErr result (λ f. f ≡ refusals.Memory) }
{
    let AsrunSettings { rate, times, .. } = settings;
    let added = if times {
        write_timed_events(alloc, events, rate, from, airings, text)
    } else {
        write_events(alloc, events, rate, from, airings.len(), text)
    };
    // (the text is written to memory, and each part of a list was read at this rate)
    match added {
        Ok(()) => Ok(()),
        Err(_) => Err(Refusal::Memory),
    }
}

// `first` is the first event that a run doesn't report. (`next` is the event with which the next run begins: if it is past the
// list's end, that run is refused.)
fn add_skipped<S: Source>(
    alloc: Global,
    events: &S,
    next: Option<usize>,
    first: usize,
    why: Skipped,
    settings: AsrunSettings,
    text: &mut Vec<u8>,
) -> Result<(), Refusal>
    requires { first ≤ length (S.items events.now) }
    ensures text { OnOk result (text.new.items ≡ text.old.items
        ++ skipped_text settings (S.items events.now) next first why) }
    ensures memory { IfErr result (λ f. f ≡ refusals.Memory) }
{
    let AsrunSettings { rate, times, .. } = settings;
    let Some(next) = next else {
        return Ok(());
    };
    if !times {
        return Ok(());
    }
    let count = next.min(events.len()).saturating_sub(first);
    let reasons = reasons(alloc, count, why)?;
    match write_timed_events(alloc, events, rate, first, reasons.as_slice(), text) {
        Ok(()) => Ok(()),
        Err(_) => Err(Refusal::Memory),
    }
}

// `unsettled` is the event that may have aired in the run, by its number there. One that is to be sent again stays unsure until
// the run reports it.
fn left_unsure(
    before: Option<usize>,
    from: usize,
    reported: usize,
    unsettled: Option<usize>,
) -> Option<usize>
    requires { IfSome unsettled (λ k. from + k < 2 ^ 64) }
    ensures { result ≡ left_unsure before from reported unsettled }
{
    match (unsettled, before) {
        (Some(k), _) => Some(from + k),
        (None, Some(event)) if reported == 0 && event == from => Some(event),
        (None, _) => None,
    }
}

// The event of which it is told that it may have aired: none if the next run begins with it, since that run tells of it then, or
// behind it, since its operator knew then whether it aired.
fn undecided(next: Option<usize>, unsure: Option<usize>) -> Option<usize>
    ensures { result ≡ undecided next unsure }
{
    let event = unsure?;
    match next {
        Some(next) if event <= next => None,
        _ => Some(event),
    }
}

fn add_event(begin: usize, event: Option<usize>, told: &mut Vec<u8>) -> Result<(), Refusal>
    ensures told { OnOk result (told.new.items ≡ told.old.items ++ open_text begin event) }
    ensures memory { IfErr result (λ f. f ≡ refusals.Memory) }
{
    let Some(event) = event else {
        return Ok(());
    };
    match writeln!(
        told,
        "vdcp: event {event} may have aired (run of row {begin})"
    ) {
        Ok(()) => Ok(()),
        Err(_) => Err(Refusal::Memory),
    }
}

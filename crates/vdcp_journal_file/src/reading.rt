//! The rows of a journal, one after another, held against what is wanted.
ghost use Rattle.std.specs.Prelude.{◌≡◌, ◌≤◌, ◌∷◌, ◌++◌, ◌+◌, ◌||◌, ℕ, [], IfErr, IfNone, IfOk, IfSome, List, None, OnOk, Option, if◌then◌else◌, length, map, option_map};
ghost use Rattle.vdcp_value.specs.declared.part.Item.{Item};
ghost use Rattle.vdcp_journal_file.specs.declared.reading.Refusal.{Refusal};
ghost use Rattle.vdcp_journal_file.specs.declared.reading.Refusal.TheVariants as refusals;
ghost use Rattle.vdcp_text.specs.declared.failure.JournalFault.TheVariants as faults;
ghost use Rattle.vdcp_journal.specs.Airings.{ended_by, unsettled_event};
ghost use Rattle.vdcp_journal.specs.Journals.{TookRows};
ghost use Rattle.vdcp_journal.specs.ListCalls.{list_calls_of};
ghost use Rattle.vdcp_journal.specs.Reading.{whole_lines};
ghost use Rattle.vdcp_journal.specs.Runs.{Run};
ghost use Rattle.vdcp_list.specs.Rests.{items_left};
ghost use Rattle.vdcp_list.specs.Rows.{FileBytes};
ghost use Rattle.vdcp_journal.specs.declared.row.Heading.{Heading};
ghost use Rattle.vdcp_journal_file.specs.Resuming.{AreFound, Continues, Differs, EachShowsAlone, EndsSo, FoundSoFar, GoesOnOrNot, IsMadeOrRefused, IsRefused, IsRunRefused, RunShows, RunsShow, failure_of, is_passed_over, read_refusal, row_fault, standing_fault};

use std::alloc::{AllocError, Global};
use std::io;
use vdcp_auto::{Controller, Heard, ListCall, Outcome, Snapshot, Source};
use vdcp_journal::laws::{runs_follow_one_another, what_is_told_is_lawful};
use vdcp_journal::{
    Airing, Airings, AiringsSoFar, Heading, JournalReadFault, JournalRowFault, JournalRows, Note,
    ResumeFault, Resumed, Row, RunSoFar, WholeLines, begins_at, heard_after, leaves,
};
use vdcp_list::Rest;
use vdcp_text::{Failure, JournalFault};
use vdcp_words::Command;

/// Why a journal isn't shown or gone on with, without its name.
#[derive(Clone, Copy)]
pub enum Refusal {
    /// The row of this number is refused; the heading is row 1.
    Row(usize, JournalFault),
    Read,
    Memory,
}

impl Refusal {
    pub(crate) fn failure(self, name: &str) -> Failure<'_>
        ensures { result ≡ failure_of name.entry self }
    {
        match self {
            Refusal::Row(row, fault) => Failure::JournalRow(name, row, fault),
            Refusal::Read => Failure::Read(name),
            Refusal::Memory => Failure::Memory,
        }
    }
}

impl From<AllocError> for Refusal {
    ghost use Rattle.std.specs.Prelude.{◌≡◌};
    ghost use Rattle.vdcp_journal_file.specs.declared.reading.Refusal.TheVariants.{Memory};

    ghost from_gives = { λ _ refusal. refusal ≡ Memory };

    fn from(_error: AllocError) -> Self {
        Self::Memory
    }
}

/// What a run of a journal shows.
#[derive(Drop)]
pub struct RunAirings {
    /// The row that it begins with, of which the heading is row 1.
    pub begin: usize,
    /// The event of the list that it began with, counted from 0.
    pub from: usize,
    /// One of each event that it reports. The end of the last one may be that which a later run shows.
    pub airings: Vec<Airing>,
    /// The event that may have aired besides, counted from the run's first.
    pub unsettled: Option<usize>,
    /// Whether its operator left it.
    pub left: bool,
    /// The note of its last row, if it has rows.
    pub last: Option<Note>,
    /// The row of it that first shows an end of what is on air, also of what was before it.
    pub first_end: Option<Row>,
    /// The first event of the list that it doesn't report, and how its controller ended, if it did; or why its rows are
    /// no controller's.
    pub ended: Result<(usize, Option<Outcome>), Refusal>,
}

/// What is found of a run's rows so far.
#[derive(Drop)]
struct FoundRun<'s, S: Source> {
    begin: usize,
    from: usize,
    made: Result<RunSoFar<'s, S>, Refusal>,
    airings: AiringsSoFar<&'s S>,
    last: Option<Note>,
}

/// What is found of all rows of a journal.
#[derive(Drop)]
pub(crate) struct FoundRuns<'s, S: Source> {
    pub runs: Vec<RunAirings>,
    /// How the last run goes on, or why it doesn't.
    pub last: Result<Resumed<Rest<&'s S>>, Refusal>,
    /// The event that may have aired though that run doesn't report it, counted from its first.
    pub unsettled: Option<usize>,
    /// The journal's last note, if a row follows the heading.
    pub last_note: Option<Note>,
    /// What was heard last (`heard_after`).
    pub heard: Option<Heard>,
    /// What all rows say of the list, in order.
    pub calls: Vec<ListCall>,
}

#[derive(Drop)]
pub(crate) struct LastRun<'s, S: Source> {
    pub controller: Controller<Rest<&'s S>>,
    /// The command whose exchange was open, and is timed out now.
    pub open: Option<Command>,
    /// The controller before that exchange was timed out.
    pub stood: Snapshot,
    /// The event that may have aired though the run doesn't report it, counted from the run's first.
    pub unsettled: Option<usize>,
    /// What the journal's runs show, this one last.
    pub runs: Vec<RunAirings>,
    /// The journal's last note, if a row follows the heading.
    pub last_note: Option<Note>,
    /// What was heard last (`heard_after`).
    pub heard: Option<Heard>,
    /// What all rows say of the list, in order.
    pub calls: Vec<ListCall>,
}

/// Makes the controller of a journal's last run anew, and times out the exchange that was open. The failure is `JournalRow`
/// if it is no journal of what is wanted, `Read` or `Memory`.
pub(crate) fn replay<'a, 's, S: Source, I: io::Read + Drop>(
    alloc: Global,
    name: &'a str,
    reader: I,
    wanted: &Heading,
    source: &'s S,
) -> Result<LastRun<'s, S>, Failure<'a>>
    requires some { 1 ≤ wanted.now.limit }
    requires few { wanted.now.limit ≤ 1000 }
    ensures replayed { IfOk result (Continues (λ s. S.items s.now) wanted.now (S.items source.now)
        (option_map whole_lines (I.remaining reader))) }
    ensures refused { IfErr result (λ failure. (refusal : Refusal) × (failure ≡ failure_of name.entry refusal)
        × IsRefused (S.items source.now) wanted.now (option_map whole_lines (I.remaining reader)) refusal) }
{
    let Ok(mut lines) = WholeLines::new(alloc, reader) else {
        return Err(Failure::Memory);
    };
    match last_run(alloc, &mut lines, wanted, source) {
        Ok(run) => Ok(run),
        Err(refusal) => Err(refusal_of(lines.long_line(), refusal).failure(name)),
    }
}

// If a line is too long, that is why reading failed.
pub(crate) fn refusal_of(long_line: Option<usize>, refusal: Refusal) -> Refusal
    ensures long { IfSome long_line (λ row. result ≡ refusals.Row row faults.Long) }
    ensures other { IfNone long_line (result ≡ refusal) }
{
    match long_line {
        Some(row) => Refusal::Row(row, JournalFault::Long),
        None => refusal,
    }
}

fn last_run<'s, S: Source, I: io::Read + Drop>(
    alloc: Global,
    lines: I,
    wanted: &Heading,
    source: &'s S,
) -> Result<LastRun<'s, S>, Refusal>
    requires some { 1 ≤ wanted.now.limit }
    requires few { wanted.now.limit ≤ 1000 }
    ensures replayed { IfOk result (Continues (λ s. S.items s.now) wanted.now (S.items source.now) (I.remaining lines)) }
    ensures refused { IfErr result (IsRefused (S.items source.now) wanted.now (I.remaining lines)) }
{
    runs_follow_one_another();
    let mut rows = match JournalRows::begin(alloc, lines) {
        Ok(rows) => rows,
        Err(fault) => return Err(read_refusal(fault)),
    };
    let FoundRuns {
        runs,
        last,
        unsettled,
        last_note,
        heard,
        calls,
    } = runs_in(alloc, &mut rows, wanted, source)?;
    if let Some(fault) = difference(&rows.heading, wanted) {
        return Err(Refusal::Row(1, fault));
    }
    match last {
        Ok(
            Resumed {
                controller,
                open,
                stood,
            },
        ) => Ok(LastRun {
            controller,
            open,
            stood,
            unsettled,
            runs,
            last_note,
            heard,
            calls,
        }),
        Err(why) => Err(why),
    }
}

/// Finds what each run of a journal shows, of which no row was taken yet, by controllers of this heading.
pub(crate) fn runs_in<'s, S: Source, I: io::Read + Drop>(
    alloc: Global,
    rows: &mut JournalRows<I>,
    heading: &Heading,
    source: &'s S,
) -> Result<FoundRuns<'s, S>, Refusal>
    requires some { 1 ≤ heading.now.limit }
    requires few { heading.now.limit ≤ 1000 }
    requires begun { (file : FileBytes) × TookRows I.remaining file rows.old [] }
    ensures heading { rows.new.heading ≡ rows.old.heading }
    ensures found { (file : FileBytes) → TookRows I.remaining file rows.old [] → IfOk result
        (AreFound (λ s. S.items s.now) heading.now rows.old.heading (S.items source.now) file) }
    ensures refused { (file : FileBytes) → TookRows I.remaining file rows.old [] → (wanted : Heading) →
        IfErr result (IsRefused (S.items source.now) wanted file) }
{
    runs_follow_one_another();
    let mut runs = Vec::new(alloc);
    let mut run = FoundRun::new(alloc, source, heading, 0, 1);
    let mut last_note = None;
    let mut heard = None;
    let mut calls = Vec::new(alloc);
    for read in 0..usize::MAX - 1 {
        let row = match rows.next_row() {
            Ok(Some(row)) => row,
            Ok(None) => {
                let (found, last) = run.end(false);
                let unsettled = found.unsettled;
                let runs = with_ends(alloc, with_run(runs, found)?)?;
                return Ok(FoundRuns {
                    runs,
                    last,
                    unsettled,
                    last_note,
                    heard,
                    calls,
                });
            }
            Err(fault) => return Err(read_refusal(fault)),
        };
        last_note = Some(row.note);
        heard = heard_after(heard, &row.note);
        add_call(&mut calls, &row.note)?;
        match begins_at(&row.note) {
            Some(event) => {
                let (found, _) = run.end(leaves(&row.note));
                runs = with_run(runs, found)?;
                run = FoundRun::new(alloc, source, heading, event, read + 2);
            }
            None => run = run.with(&row, read + 2)?,
        }
    }
    Err(Refusal::Read)
}

impl<'s, S: Source> FoundRun<'s, S> {
    fn new(alloc: Global, source: &'s S, heading: &Heading, from: usize, begin: usize) -> Self
        requires some { 1 ≤ heading.now.limit }
        requires few { heading.now.limit ≤ 1000 }
        ensures { (run : Run) → run.from ≡ from → run.rows ≡ [] → run.begin + 1 ≡ begin
            → FoundSoFar (λ s. S.items s.now) heading.now (S.items source.now) run result }
    {
        FoundRun {
            begin,
            from,
            made: begun(source, heading, from, begin),
            airings: AiringsSoFar::new(alloc, source, heading.mode),
            last: None,
        }
    }

    // `number` is that of the row in the journal.
    fn with(self, row: &Row, number: usize) -> Result<Self, AllocError>
        ensures { (heading : Heading) (list : List Item) (run : Run) → run.begin + length run.rows + 2 ≡ number
            → FoundSoFar (λ s. S.items s.now) heading list run self.entry
            → IfOk result (FoundSoFar (λ s. S.items s.now) heading list (record run { rows = run.rows ++ row.now ∷ [] })) }
    {
        let FoundRun {
            begin,
            from,
            made,
            mut airings,
            ..
        } = self;
        airings.add(row)?;
        Ok(FoundRun {
            begin,
            from,
            made: followed(made, row, number),
            airings,
            last: Some(row.note),
        })
    }

    // It has no more rows.
    fn end(self, left: bool) -> (RunAirings, Result<Resumed<Rest<&'s S>>, Refusal>)
        ensures shows { (heading : Heading) (list : List Item) (run : Run)
            → FoundSoFar (λ s. S.items s.now) heading list run self.entry
            → RunShows list heading (record run { left = left }) None result.0 }
        ensures goes_on { (heading : Heading) (list : List Item) (run : Run)
            → FoundSoFar (λ s. S.items s.now) heading list run self.entry → run.left ≡ left
            → GoesOnOrNot (λ s. S.items s.now) heading list run result.0.unsettled result.1 }
    {
        let FoundRun {
            begin,
            from,
            made,
            airings,
            last,
        } = self;
        let Airings {
            airings,
            unsettled,
            first_end,
        } = airings.finish(left);
        let (resumed, ended) = resumed(made);
        let shown = RunAirings {
            begin,
            from,
            airings,
            unsettled,
            left,
            last,
            first_end,
            ended,
        };
        (shown, resumed)
    }
}

fn add_call(calls: &mut Vec<ListCall>, note: &Note) -> Result<(), AllocError>
    ensures { OnOk result (calls.new.items ≡ calls.old.items ++ list_calls_of note.now) }
{
    if let Note::List(call) = note {
        calls.push(*call)?;
    }
    Ok(())
}

fn resumed<'s, S: Source>(
    made: Result<RunSoFar<'s, S>, Refusal>,
) -> (
    Result<Resumed<Rest<&'s S>>, Refusal>,
    Result<(usize, Option<Outcome>), Refusal>,
)
    ensures goes_on { (heading : Heading) (list : List Item) (run : Run) (unsettled : Option ℕ)
        → IsMadeOrRefused (λ s. S.items s.now) heading list run made.entry → unsettled ≡ unsettled_event heading.mode run
        → GoesOnOrNot (λ s. S.items s.now) heading list run unsettled result.0 }
    ensures ends { (heading : Heading) (list : List Item) (run : Run)
        → IsMadeOrRefused (λ s. S.items s.now) heading list run made.entry → EndsSo list heading run result.1 }
{
    what_is_told_is_lawful();
    match made {
        Ok(run) => {
            let resumed = run.resume();
            let ended = (
                first_left(&resumed.controller),
                resumed.controller.outcome(),
            );
            (Ok(resumed), Ok(ended))
        }
        Err(why) => (Err(why), Err(why)),
    }
}

/// The first event of the list that its controller doesn't report.
pub(crate) fn first_left<S: Source>(controller: &Controller<Rest<&S>>) -> usize
    ensures first { result ≡ controller.now.source.from + controller.now.state.settled }
    ensures within { result ≤ controller.now.source.from
        + length (items_left (λ s. S.items s.now) controller.now.source) }
{
    controller.source().from() + controller.settled()
}

fn with_run(mut runs: Vec<RunAirings>, run: RunAirings) -> Result<Vec<RunAirings>, Refusal>
    ensures runs { IfOk result (λ all. all.items ≡ runs.items ++ run ∷ []) }
    ensures memory { IfErr result (λ why. why ≡ refusals.Memory) }
{
    match runs.push(run) {
        Ok(()) => Ok(runs),
        Err(_) => Err(Refusal::Memory),
    }
}

// Gives the last airing of each run the end that only the rows of later runs show.
fn with_ends(alloc: Global, mut runs: Vec<RunAirings>) -> Result<Vec<RunAirings>, Refusal>
    ensures ended { (items : List Item) (heading : Heading) (all : List Run) → EachShowsAlone items heading all runs.items
        → IfOk result (λ ended. RunsShow items heading all ended.items) }
    ensures memory { IfErr result (λ why. why ≡ refusals.Memory) }
{
    let mut ended = Vec::new(alloc);
    // (the event with which the run behind begins, and the first end that its rows show or those over which it plays on)
    let mut next = None;
    let mut end = None;
    while let Some(mut run) = runs.pop() {
        let behind = end_behind(&run, next, end);
        end_all(&mut run.airings, behind);
        next = Some(run.from);
        end = run.first_end.or(behind);
        ended = with_run(ended, run)?;
    }
    ended.reverse();
    Ok(ended)
}

fn end_behind(run: &RunAirings, next: Option<usize>, end: Option<Row>) -> Option<Row>
    ensures none { IfNone next (result ≡ None) }
    ensures behind { IfSome next (λ next. result
        ≡ (if run.now.left || is_passed_over run.now.from next run.now.last then end else None)) }
{
    match next {
        Some(next) if run.left || is_passed_over(run.from, next, run.last) => end,
        _ => None,
    }
}

fn is_passed_over(from: usize, next: usize, last: Option<Note>) -> bool
    ensures { result ≡ is_passed_over from next last }
{
    match last {
        Some(Note::End(Outcome::Missing(event) | Outcome::Refused(event))) => {
            event < next.saturating_sub(from)
        }
        _ => false,
    }
}

// (all but the last have ended in their run)
fn end_all(airings: &mut Vec<Airing>, end: Option<Row>)
    ensures { airings.new.items ≡ map (ended_by end) airings.old.items }
{
    for airing in airings.iter_mut() {
        *airing = airing.ended_by(end);
    }
}

fn begun<'s, S: Source>(
    source: &'s S,
    heading: &Heading,
    from: usize,
    row: usize,
) -> Result<RunSoFar<'s, S>, Refusal>
    requires some { 1 ≤ heading.now.limit }
    requires few { heading.now.limit ≤ 1000 }
    ensures { (run : Run) → run.from ≡ from → run.rows ≡ [] → run.begin + 1 ≡ row
        → IsMadeOrRefused (λ s. S.items s.now) heading.now (S.items source.now) run result }
{
    if from > source.len() {
        return Err(Refusal::Row(row, JournalFault::Event));
    }
    let Heading {
        mode,
        port,
        limit,
        ..
    } = *heading;
    Ok(RunSoFar::new(source, from, mode, port, limit))
}

fn followed<'s, S: Source>(
    made: Result<RunSoFar<'s, S>, Refusal>,
    row: &Row,
    number: usize,
) -> Result<RunSoFar<'s, S>, Refusal>
    ensures { (heading : Heading) (list : List Item) (run : Run) → run.begin + length run.rows + 2 ≡ number
        → IsMadeOrRefused (λ s. S.items s.now) heading list run made.entry
        → IsMadeOrRefused (λ s. S.items s.now) heading list (record run { rows = run.rows ++ row.now ∷ [] }) result }
{
    match made {
        Ok(mut run) => match run.follow(row) {
            Ok(()) => Ok(run),
            Err(fault) => Err(Refusal::Row(number, standing_fault(fault))),
        },
        Err(why) => Err(why),
    }
}

pub(crate) fn read_refusal(fault: JournalReadFault) -> Refusal
    ensures { result ≡ read_refusal fault }
{
    match fault {
        JournalReadFault::Empty => Refusal::Row(1, JournalFault::Empty),
        JournalReadFault::Heading(fault) => Refusal::Row(1, row_fault(fault)),
        JournalReadFault::Row(row, fault) => Refusal::Row(row, row_fault(fault)),
        JournalReadFault::Long(row) => Refusal::Row(row, JournalFault::Long),
        JournalReadFault::Memory => Refusal::Memory,
        JournalReadFault::Device => Refusal::Read,
    }
}

fn row_fault(fault: JournalRowFault) -> JournalFault
    ensures { result ≡ row_fault fault }
{
    match fault {
        JournalRowFault::Fields => JournalFault::Columns,
        JournalRowFault::Time => JournalFault::Time,
        JournalRowFault::Word => JournalFault::Word,
        JournalRowFault::Command => JournalFault::Command,
        JournalRowFault::Reply => JournalFault::Reply,
        JournalRowFault::Outcome => JournalFault::Outcome,
        JournalRowFault::Detail => JournalFault::Detail,
        JournalRowFault::Digest => JournalFault::Digest,
        JournalRowFault::Mode => JournalFault::Mode,
        JournalRowFault::Number => JournalFault::Number,
        JournalRowFault::Event => JournalFault::Event,
    }
}

fn standing_fault(fault: ResumeFault) -> JournalFault
    ensures { result ≡ standing_fault fault }
{
    match fault {
        ResumeFault::Command => JournalFault::Command,
        ResumeFault::Unawaited => JournalFault::Unawaited,
        ResumeFault::Outcome => JournalFault::Outcome,
    }
}

fn difference(found: &Heading, wanted: &Heading) -> Option<JournalFault>
    ensures differs { IfSome result (Differs found.now wanted.now) }
    ensures same { IfNone result (found.now ≡ wanted.now) }
{
    if found.digest != wanted.digest {
        return Some(JournalFault::List);
    }
    if found.mode != wanted.mode {
        return Some(JournalFault::Mode);
    }
    if found.unit != wanted.unit {
        return Some(JournalFault::Unit);
    }
    if found.port != wanted.port {
        return Some(JournalFault::Port);
    }
    if found.limit != wanted.limit {
        return Some(JournalFault::Limit);
    }
    None
}

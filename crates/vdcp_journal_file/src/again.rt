//! How a new run begins in a journal that has others.
ghost use Rattle.std.specs.Prelude.{◌≡◌, ◌⊎◌, ◌≤◌, ◌<◌, ◌+◌, ◌↔◌, None, Some, IfErr, IfOk, IfSome, IsSome, IsTrue, length};
ghost use Rattle.vdcp_auto.specs.Plan.{plan_of};
ghost use Rattle.vdcp_auto.specs.Turn.{new_controller, outcome_of};
ghost use Rattle.vdcp_journal.specs.Runs.{Run};
ghost use Rattle.vdcp_journal.specs.declared.row.Heading.{Heading};
ghost use Rattle.vdcp_list.specs.Rests.{items_left};
ghost use Rattle.vdcp_list.specs.Rows.{FileBytes};
ghost use Rattle.vdcp_journal_file.specs.Mending.{IsHeaded, lines_of};
ghost use Rattle.vdcp_journal_file.specs.Recording.{BeganWith, HasBegun};
ghost use Rattle.vdcp_journal_file.specs.Resuming.{BeginsAfter, IsNoBeginning, IsOpenedAfter, IsOpenedAgain, IsOver, IsRunOn, IsUnopenedAgain, JournalShows, beginning_note, said_event};
ghost use Rattle.vdcp_text.specs.declared.failure.Failure.TheVariants as failures;

use crate::disk::ReadableDisk;
use crate::file::open;
use crate::mending::{end_with, mend_heading};
use crate::pending::Pending;
use crate::reading::{LastRun, first_left};
use crate::recorder::Recorder;
use crate::resume::{Resumption, go_on, replay_file};
use std::fs::File;
use std::rt::{Clock, Files};
use vdcp_auto::{Controller, Mode, Outcome, Source};
use vdcp_journal::{Heading, Note};
use vdcp_list::Rest;
use vdcp_text::Failure;

/// With which event a new run begins in a journal that has others.
#[derive(Clone, Copy, Debug)]
pub enum Beginning {
    /// The first that the last run doesn't report.
    Next,
    /// This one, as the operator says.
    From(usize),
    /// This one: the operator left the last run.
    Left(usize),
}

impl Beginning {
    fn said(self) -> Option<usize>
        ensures { result ≡ said_event self }
    {
        match self {
            Beginning::Next => None,
            Beginning::From(event) | Beginning::Left(event) => Some(event),
        }
    }

    fn note(self, event: usize) -> Note
        ensures { result ≡ beginning_note self event }
    {
        match self {
            Beginning::Next | Beginning::From(_) => Note::From(event),
            Beginning::Left(_) => Note::Left(event),
        }
    }
}

/// Begins a new run in the journal of this name, after its last one. If `beginning` is `Next` and the last run is done or
/// stopped, its end is told again instead. The row that says where the run begins is safe before anything is sent.
///
/// The failure is `MayHaveAired` if the next event may have aired, and `NoEvent` if the one that is said is above the list's
/// length. If no run begins, no row of one is written.
pub fn begin_again<'a, 'r, 's, R: Files<File = File> + Clock + AllocGlobal, S: Source>(
    rt: &'r R,
    name: &'a str,
    wanted: &Heading,
    source: &'s S,
    beginning: Beginning,
) -> Result<Resumption<'a, 'r, R, &'s S>, Failure<'a>>
    requires unit { wanted.now.unit ≤ 15 }
    requires some { 1 ≤ wanted.now.limit }
    requires few { wanted.now.limit ≤ 1000 }
    ensures opened { IfOk result (λ r. IsOpenedAgain (S.items source.now) wanted.now (said_event beginning) r.controller.source.from
        (plan_of (items_left (λ s. S.items s.now)) r.controller) r.controller.state) }
    ensures list { IfOk result (λ r. S.items r.controller.source.source.now ≡ S.items source.now) }
    ensures goes_on { IfOk result (λ r. IsSome r.recorder ↔ (outcome_of r.controller.state.stage ≡ None)) }
    ensures unit { IfOk result (λ r. IfSome r.recorder (λ recorder. recorder.unit ≡ wanted.now.unit)) }
    ensures name { IfOk result (λ r. IfSome r.recorder (λ recorder. recorder.name ≡ name.entry)) }
    ensures from { IfOk result (λ r. IfSome r.recorder (BeganWith (Some (beginning_note beginning r.controller.source.from)))) }
    ensures shows { IfOk result (λ r. (lines : FileBytes) × JournalShows (S.items source.now) wanted.now lines r.runs.items r.calls.items) }
    ensures unopened { IfErr result (IsUnopenedAgain (S.items source.now) name.entry wanted.now (said_event beginning)) }
{
    let file = open(rt, name)?;
    begin_in(rt, name, wanted, source, beginning, file)
}

// The file then has just the lines that were read, and the row that begins the run.
fn begin_in<'a, 'r, 's, R: Files + Clock + AllocGlobal, S: Source, F: ReadableDisk + Drop>(
    rt: &'r R,
    name: &'a str,
    wanted: &Heading,
    source: &'s S,
    beginning: Beginning,
    mut file: F,
) -> Result<Resumption<'a, 'r, R, &'s S, F>, Failure<'a>>
    requires unit { wanted.now.unit ≤ 15 }
    requires some { 1 ≤ wanted.now.limit }
    requires few { wanted.now.limit ≤ 1000 }
    ensures opened { IfOk result (λ r. (begun : FileBytes) × IsHeaded wanted.now (F.written file) begun
        × IsOpenedAfter (S.items source.now) wanted.now (lines_of begun) (said_event beginning) r.controller.source.from
        (plan_of (items_left (λ s. S.items s.now)) r.controller) r.controller.state
        × IfSome r.recorder (HasBegun F.safe F.written (lines_of begun))
        × JournalShows (S.items source.now) wanted.now (lines_of begun) r.runs.items r.calls.items) }
    ensures list { IfOk result (λ r. S.items r.controller.source.source.now ≡ S.items source.now) }
    ensures goes_on { IfOk result (λ r. IsSome r.recorder ↔ (outcome_of r.controller.state.stage ≡ None)) }
    ensures unit { IfOk result (λ r. IfSome r.recorder (λ recorder. recorder.unit ≡ wanted.now.unit)) }
    ensures name { IfOk result (λ r. IfSome r.recorder (λ recorder. recorder.name ≡ name.entry)) }
    ensures from { IfOk result (λ r. IfSome r.recorder (BeganWith (Some (beginning_note beginning r.controller.source.from)))) }
    ensures unopened { IfErr result (IsUnopenedAgain (S.items source.now) name.entry wanted.now (said_event beginning)) }
{
    mend_heading(rt, name, wanted, &mut file)?;
    let run = replay_file(rt.alloc(), name, wanted, source, &file)?;
    let word = beginning.said();
    if is_told_again(word, &run.controller) {
        end_with(rt.alloc(), name, &mut file, &[])?;
        return go_on(rt, name, wanted.unit, file, run);
    }
    // (a torn last row is left as it is if no run begins)
    let event = first_event(source, word, &run)?;
    end_with(rt.alloc(), name, &mut file, &[])?;
    let mut recorder = Recorder::after(rt, name, wanted.unit, file, Pending::Nothing);
    recorder.keep_from(Some(beginning.note(event)))?;
    Ok(Resumption {
        controller: new_controller(source, event, wanted),
        recorder: Some(recorder),
        runs: run.runs,
        calls: run.calls,
    })
}

fn is_told_again<S: Source>(word: Option<usize>, controller: &Controller<S>) -> bool
    ensures unsaid { IsTrue result → word ≡ None }
    ensures is_over { IsTrue result → IsOver (outcome_of controller.now.state.stage) }
    ensures told { word ≡ None → IsOver (outcome_of controller.now.state.stage) → IsTrue result }
{
    match word {
        None => is_over(controller),
        Some(_) => false,
    }
}

fn is_over<S: Source>(controller: &Controller<S>) -> bool
    ensures over { IsTrue result → IsOver (outcome_of controller.now.state.stage) }
    ensures told { IsOver (outcome_of controller.now.state.stage) → IsTrue result }
{
    match controller.outcome() {
        Some(Outcome::Done | Outcome::Stopped) => true,
        _ => false,
    }
}

fn first_event<'a, S: Source>(
    source: &S,
    word: Option<usize>,
    run: &LastRun<'_, S>,
) -> Result<usize, Failure<'a>>
    ensures begins { (wanted : Heading) (of : Run)
        → IsRunOn (λ s. S.items s.now) wanted (S.items source.now) of run.now.controller run.now.«open» run.now.unsettled
        → IfOk result (λ k. BeginsAfter wanted of word k × (k ≤ length (S.items source.now))) }
    ensures none { (wanted : Heading) (of : Run)
        → IsRunOn (λ s. S.items s.now) wanted (S.items source.now) of run.now.controller run.now.«open» run.now.unsettled
        → IfErr result (IsNoBeginning (S.items source.now) wanted of word) }
{
    match word {
        Some(event) => listed(source, event),
        None => next_event(run),
    }
}

fn listed<'a, S: Source>(source: &S, event: usize) -> Result<usize, Failure<'a>>
    ensures event { IfOk result (λ k. k ≡ event) }
    ensures listed { IfOk result (λ k. k ≤ length (S.items source.now)) }
    ensures none { IfErr result (λ failure. (failure ≡ failures.NoEvent event) × (length (S.items source.now) < event)) }
{
    if event > source.len() {
        return Err(Failure::NoEvent(event));
    }
    Ok(event)
}

fn next_event<'a, S: Source>(run: &LastRun<'_, S>) -> Result<usize, Failure<'a>>
    ensures next { IfOk result (λ k. (k ≡ run.now.controller.source.from + run.now.controller.state.settled)
        × (run.now.unsettled ≡ None)) }
    ensures within { IfOk result (λ k. k ≤ run.now.controller.source.from
        + length (items_left (λ s. S.items s.now) run.now.controller.source)) }
    ensures none { IfErr result (λ failure. IsSome run.now.unsettled
        × (failure ≡ failures.MayHaveAired (run.now.controller.source.from + run.now.controller.state.settled))) }
{
    let event = first_left(&run.controller);
    if run.unsettled.is_some() {
        return Err(Failure::MayHaveAired(event));
    }
    Ok(event)
}

fn new_controller<'s, S: Source>(
    source: &'s S,
    from: usize,
    heading: &Heading,
) -> Controller<Rest<&'s S>>
    requires some { 1 ≤ heading.now.limit }
    requires few { heading.now.limit ≤ 1000 }
    requires listed { from ≤ length (S.items source.now) }
    ensures { result ≡ new_controller (record { source = source.entry; from = from }) heading.now.mode heading.now.port heading.now.limit }
{
    let rest = Rest::new(source, from);
    match heading.mode {
        Mode::Plain => Controller::new(rest, heading.port, heading.limit),
        Mode::Confirming => Controller::confirming(rest, heading.port, heading.limit),
    }
}

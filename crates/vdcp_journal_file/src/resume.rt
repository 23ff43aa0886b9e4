//! How the last run of a journal's file goes on.
ghost use Rattle.std.specs.Prelude.{◌≡◌, ◌≤◌, ◌↔◌, IfErr, IfOk, IfSome, IsFalse, IsSome, IsTrue, None, OnOk, Some, length};
ghost use Rattle.vdcp_auto.specs.Plan.{plan_of};
ghost use Rattle.vdcp_auto.specs.Turn.{outcome_of};
ghost use Rattle.vdcp_journal.specs.Mending.{is_end};
ghost use Rattle.vdcp_journal.specs.Runs.{Run};
ghost use Rattle.vdcp_journal.specs.declared.moment.Moment.{Moment};
ghost use Rattle.vdcp_list.specs.Rests.{items_left};
ghost use Rattle.vdcp_list.specs.Rows.{FileBytes};
ghost use Rattle.vdcp_journal_file.specs.Disks.{HasJust};
ghost use Rattle.vdcp_journal_file.specs.Mending.{IsHeaded, IsMended, lines_of};
ghost use Rattle.vdcp_journal_file.specs.Recorded.{MayHold};
ghost use Rattle.vdcp_journal_file.specs.Recording.{Adds, IsTimedOut, IsUnwritten, outcome_rows};
ghost use Rattle.vdcp_journal_file.specs.Resuming.{Continues, IsReplayed, JournalShows, IsUnread, IsUnresumed, open_after, plan_of_run};

use crate::disk::{Disk, ReadableDisk};
use crate::file::open;
use crate::mending::{mend_end, mend_heading, not_read};
use crate::pending::Pending;
use crate::reading::{LastRun, RunAirings, replay};
use crate::recorder::Recorder;
use crate::torn::Closing;
use std::alloc::Global;
use std::fs::File;
use std::rt::{Clock, Files};
use vdcp_auto::{Controller, ListCall, Outcome, Source};
use vdcp_journal::{Heading, Moment, Note, Row, is_end};
use vdcp_list::Rest;
use vdcp_text::Failure;
use vdcp_words::Command;

#[derive(Drop)]
pub struct Resumption<'a, 'r, R, S: Source, F: Disk = File> {
    /// It plays the list from an event on.
    pub controller: Controller<Rest<S>>,
    /// It appends to the journal. None if the controller has ended: there is nothing to send.
    pub recorder: Option<Recorder<'a, 'r, R, F>>,
    /// What the journal's runs showed before this, the last one last.
    pub runs: Vec<RunAirings>,
    /// What its rows say of the list, those of all runs, in order.
    pub calls: Vec<ListCall>,
}

/// Goes on with the last run of the journal of this name: its rows make the controller, and the exchange that was open is
/// timed out. If the run was lost, the limit grows as `RunSoFar` says.
///
/// A torn last row is cut off, or gets its line feed if it lacks no more and may have put a clip to air; a torn first one
/// is written anew. All rows are made safe. If a row is refused no other is written.
pub fn resume_journal<'a, 'r, 's, R: Files<File = File> + Clock + AllocGlobal, S: Source>(
    rt: &'r R,
    name: &'a str,
    wanted: &Heading,
    source: &'s S,
) -> Result<Resumption<'a, 'r, R, &'s S>, Failure<'a>>
    requires unit { wanted.now.unit ≤ 15 }
    requires some { 1 ≤ wanted.now.limit }
    requires few { wanted.now.limit ≤ 1000 }
    ensures resumed { IfOk result (λ r. (lines : FileBytes) × (run : Run)
        × IsReplayed (S.items source.now) wanted.now lines run (plan_of (items_left (λ s. S.items s.now)) r.controller)
        r.controller.state
        × (r.controller.source.from ≡ run.from)
        × IfSome r.recorder (λ recorder.
        IsTimedOut (open_after (plan_of_run wanted.now (S.items source.now) run) run.rows) recorder.pending)) }
    ensures list { IfOk result (λ r. S.items r.controller.source.source.now ≡ S.items source.now) }
    ensures goes_on { IfOk result (λ r. IsSome r.recorder ↔ (outcome_of r.controller.state.stage ≡ None)) }
    ensures unit { IfOk result (λ r. IfSome r.recorder (λ recorder. recorder.unit ≡ wanted.now.unit)) }
    ensures name { IfOk result (λ r. IfSome r.recorder (λ recorder. recorder.name ≡ name.entry)) }
    ensures shows { IfOk result (λ r. (lines : FileBytes) × JournalShows (S.items source.now) wanted.now lines r.runs.items r.calls.items) }
    ensures unresumed { IfErr result (IsUnresumed (S.items source.now) name.entry wanted.now) }
{
    let file = open(rt, name)?;
    resume_in(rt, name, wanted, source, file)
}

// The file then has just the lines that were read.
fn resume_in<'a, 'r, 's, R: Files + Clock + AllocGlobal, S: Source, F: ReadableDisk + Drop>(
    rt: &'r R,
    name: &'a str,
    wanted: &Heading,
    source: &'s S,
    mut file: F,
) -> Result<Resumption<'a, 'r, R, &'s S, F>, Failure<'a>>
    requires unit { wanted.now.unit ≤ 15 }
    requires some { 1 ≤ wanted.now.limit }
    requires few { wanted.now.limit ≤ 1000 }
    ensures resumed { IfOk result (λ r. (begun lines : FileBytes) × (run : Run)
        × IsHeaded wanted.now (F.written file) begun
        × IsMended (S.items source.now) wanted.now (lines_of begun) lines
        × IsReplayed (S.items source.now) wanted.now lines run (plan_of (items_left (λ s. S.items s.now)) r.controller)
        r.controller.state
        × (r.controller.source.from ≡ run.from)
        × IfSome r.recorder (λ recorder.
        IsTimedOut (open_after (plan_of_run wanted.now (S.items source.now) run) run.rows) recorder.pending)
        × IfSome r.recorder (λ recorder. HasJust F.safe F.written lines recorder.file)
        × JournalShows (S.items source.now) wanted.now lines r.runs.items r.calls.items) }
    ensures list { IfOk result (λ r. S.items r.controller.source.source.now ≡ S.items source.now) }
    ensures goes_on { IfOk result (λ r. IsSome r.recorder ↔ (outcome_of r.controller.state.stage ≡ None)) }
    ensures unit { IfOk result (λ r. IfSome r.recorder (λ recorder. recorder.unit ≡ wanted.now.unit)) }
    ensures name { IfOk result (λ r. IfSome r.recorder (λ recorder. recorder.name ≡ name.entry)) }
    ensures unresumed { IfErr result (IsUnresumed (S.items source.now) name.entry wanted.now) }
{
    mend_heading(rt, name, wanted, &mut file)?;
    let run = mend_end(rt, name, wanted, source, &mut file)?;
    go_on(rt, name, wanted.unit, file, run)
}

pub(crate) fn replay_file<'a, 's, S: Source, F: ReadableDisk>(
    alloc: Global,
    name: &'a str,
    wanted: &Heading,
    source: &'s S,
    file: &F,
) -> Result<LastRun<'s, S>, Failure<'a>>
    requires some { 1 ≤ wanted.now.limit }
    requires few { wanted.now.limit ≤ 1000 }
    ensures replayed { IfOk result (Continues (λ s. S.items s.now) wanted.now (S.items source.now)
        (lines_of (F.written file.now))) }
    ensures unresumed { IfErr result (IsUnresumed (S.items source.now) name.entry wanted.now) }
{
    let reader = Closing::new(reader_of(name, file)?);
    replay(alloc, name, reader, wanted, source)
}

pub(crate) fn reader_of<'a, F: ReadableDisk>(
    name: &'a str,
    file: &F,
) -> Result<F::Reader, Failure<'a>>
    ensures all { IfOk result (λ reader. F.Reader.remaining reader ≡ F.written file.now) }
    ensures unread { IfErr result (IsUnread name.entry) }
{
    match file.reader() {
        Ok(reader) => Ok(reader),
        Err(error) => Err(not_read(name, &error)),
    }
}

/// If the controller has ended and no row says so, one is written.
pub(crate) fn go_on<'a, 'r, 's, R: Files + Clock + AllocGlobal, S: Source, F: Disk + Drop>(
    rt: &'r R,
    name: &'a str,
    unit: u8,
    file: F,
    run: LastRun<'s, S>,
) -> Result<Resumption<'a, 'r, R, &'s S, F>, Failure<'a>>
    requires unit { unit ≤ 15 }
    requires synced { F.safe file ≡ F.written file }
    ensures controller { IfOk result (λ r. r.controller ≡ run.entry.controller) }
    ensures goes_on { IfOk result (λ r. IsSome r.recorder ↔ (outcome_of r.controller.state.stage ≡ None)) }
    ensures unit { IfOk result (λ r. IfSome r.recorder (λ recorder. recorder.unit ≡ unit)) }
    ensures name { IfOk result (λ r. IfSome r.recorder (λ recorder. recorder.name ≡ name.entry)) }
    ensures pending { IfOk result (λ r. IfSome r.recorder (λ recorder. IsTimedOut run.entry.«open» recorder.pending)) }
    ensures file { IfOk result (λ r. IfSome r.recorder (λ recorder. recorder.file ≡ file)) }
    ensures shows { IfOk result (λ r. (r.runs.items ≡ run.entry.runs.items) × (r.calls.items ≡ run.entry.calls.items)) }
    ensures unwritten { IfErr result (IsUnwritten name.entry) }
{
    let LastRun {
        controller,
        open,
        runs,
        last_note,
        calls,
        ..
    } = run;
    let mut recorder = Recorder::after(rt, name, unit, file, pending_after(open));
    if let Some(outcome) = controller.outcome() {
        finish(&mut recorder, outcome, last_note)?;
        return Ok(Resumption {
            controller,
            recorder: None,
            runs,
            calls,
        });
    }
    Ok(Resumption {
        controller,
        recorder: Some(recorder),
        runs,
        calls,
    })
}

// The journal's last row may say so already.
fn finish<'a, R: Files + Clock + AllocGlobal, F: Disk + Drop>(
    recorder: &mut Recorder<'a, '_, R, F>,
    outcome: Outcome,
    last: Option<Note>,
) -> Result<(), Failure<'a>>
    ensures said { IsTrue (is_end last) → recorder.new ≡ recorder.old }
    ensures unsaid { IsFalse (is_end last) → OnOk result ((time : Moment)
        × Adds F.safe recorder.old recorder.new (outcome_rows time (Some outcome))) }
    ensures unwritten { IfErr result (IsUnwritten recorder.old.name) }
{
    if is_end(last) {
        return Ok(());
    }
    let name = recorder.name();
    match recorder.finish(Some(outcome)) {
        Ok(()) => Ok(()),
        Err(fault) => Err(fault.failure(name)),
    }
}

// No clock gives the time of the silence.
fn pending_after(open: Option<Command>) -> Pending
    ensures pending { IsTimedOut «open» result }
    ensures ends { MayHold result }
{
    match open {
        Some(_) => Pending::End(Row {
            time: Moment::unclocked(),
            note: Note::Silence,
        }),
        None => Pending::Nothing,
    }
}

//! What a run begins with: its controller, and the recorder of its journal.
ghost use Rattle.std.specs.Option.{option_map};
ghost use Rattle.std.specs.Prelude.{◌≡◌, ◌⊎◌, ◌≤◌, [], IfErr, IfOk, IfSome, IsSome, IsSomeAnd, Some, length};
ghost use Rattle.vdcp_journal_file.specs.Recording.{BeganWith, IsUnbegun};
ghost use Rattle.vdcp_journal_file.specs.Resuming.{said_event};
ghost use Rattle.vdcp_run.specs.Run.{HasRecorder, IsAgain, IsApart, IsBegun, IsPlaceRefused, IsUnkept, SaysOfList, first_event, beginning_of, heading_for, name_of, new_controller};
ghost use Rattle.vdcp_run.specs.Asking.{start_of};

use crate::place::{Apart, test_place};
use crate::settings::{RunJournal, RunSettings};
use std::fs::{self, File};
use std::rt::{Clock, Files};
use vdcp_auto::{Controller, Mode, Source};
use vdcp_journal::{Heading, Note, digest_of};
use vdcp_journal_file::{Beginning, Resumption, begin_again, begin_journal, resume_journal};
use vdcp_list::Rest;
use vdcp_text::Failure;

/// Makes the controller, and the recorder of its journal unless the controller has ended there. If the run begins with a
/// named event, or after an earlier run, the journal says so, and that is safe. A run with a journal needs an as-run file
/// that can be made and isn't the journal. If the run is refused no new journal is left.
pub fn begin<'a, 'r, 's, R: Files<File = File> + Clock + AllocGlobal, S: Source>(
    rt: &'r R,
    source: &'s S,
    settings: RunSettings<'a>,
) -> Result<(Resumption<'a, 'r, R, &'s S>, Option<Apart<'a>>), Failure<'a>>
    requires unit { settings.unit ≤ 15 }
    requires some { 1 ≤ settings.limit }
    requires few { settings.limit ≤ 1000 }
    requires listed { first_event settings.from ≤ length (S.items source.now) }
    ensures begun { IfOk result (λ r. IsBegun settings.entry (S.items source.now) settings.entry.journal
        (start_of (λ s. S.items s.now) r.0.controller) r.0.recorder) }
    ensures kept { IfOk result (λ r. HasRecorder settings.entry.unit settings.entry.journal r.0.controller.state r.0.recorder) }
    ensures list { IfOk result (λ r. S.items r.0.controller.source.source.now ≡ S.items source.now) }
    ensures calls { IfOk result (λ r. SaysOfList settings.entry (S.items source.now) settings.entry.journal r.0.calls.items) }
    ensures apart { IfOk result (λ r. IfSome settings.entry.journal (λ journal.
        IsSomeAnd r.1 (IsApart settings.entry.asrun (name_of journal)))) }
    ensures refused { IfErr result (IsUnkept settings.entry (S.items source.now) settings.entry.journal) }
{
    match settings.journal {
        None => {
            let begun = Resumption {
                controller: new_controller(source, settings),
                recorder: None,
                runs: Vec::new(rt.alloc()),
                calls: Vec::new(rt.alloc()),
            };
            Ok((begun, None))
        }
        Some(journal) => begin_kept(rt, source, journal, settings),
    }
}

fn begin_kept<'a, 'r, 's, R: Files<File = File> + Clock + AllocGlobal, S: Source>(
    rt: &'r R,
    source: &'s S,
    journal: RunJournal<'a>,
    settings: RunSettings<'a>,
) -> Result<(Resumption<'a, 'r, R, &'s S>, Option<Apart<'a>>), Failure<'a>>
    requires unit { settings.unit ≤ 15 }
    requires some { 1 ≤ settings.limit }
    requires few { settings.limit ≤ 1000 }
    requires listed { first_event settings.from ≤ length (S.items source.now) }
    ensures begun { IfOk result (λ r. IsBegun settings.entry (S.items source.now) (Some journal.entry)
        (start_of (λ s. S.items s.now) r.0.controller) r.0.recorder) }
    ensures kept { IfOk result (λ r. HasRecorder settings.entry.unit (Some journal.entry) r.0.controller.state r.0.recorder) }
    ensures list { IfOk result (λ r. S.items r.0.controller.source.source.now ≡ S.items source.now) }
    ensures calls { IfOk result (λ r. SaysOfList settings.entry (S.items source.now) (Some journal.entry) r.0.calls.items) }
    ensures apart { IfOk result (λ r. IsSomeAnd r.1 (IsApart settings.entry.asrun (name_of journal.entry))) }
    ensures refused { IfErr result (IsUnkept settings.entry (S.items source.now) (Some journal.entry)) }
{
    let apart = test_place(rt, settings.asrun, journal.name())?;
    let heading = heading_of(rt, source, settings)?;
    match journal {
        RunJournal::New(name) => begin_new(rt, name, &heading, source, settings),
        RunJournal::Older(name) => match resume_journal(rt, name, &heading, source) {
            Ok(begun) => Ok((begun, Some(apart))),
            Err(failure) => Err(failure),
        },
        RunJournal::Again(_) => begin_after(rt, source, journal, &heading, settings, apart),
        RunJournal::Left(_) => begin_after(rt, source, journal, &heading, settings, apart),
    }
}

fn begin_after<'a, 'r, 's, R: Files<File = File> + Clock + AllocGlobal, S: Source>(
    rt: &'r R,
    source: &'s S,
    journal: RunJournal<'a>,
    heading: &Heading,
    settings: RunSettings<'a>,
    apart: Apart<'a>,
) -> Result<(Resumption<'a, 'r, R, &'s S>, Option<Apart<'a>>), Failure<'a>>
    requires unit { settings.unit ≤ 15 }
    requires some { 1 ≤ settings.limit }
    requires few { settings.limit ≤ 1000 }
    requires heading { heading.now ≡ heading_for settings (S.items source.now) }
    requires apart { IsApart settings.asrun (name_of journal) apart }
    ensures begun { IsAgain journal.entry → IfOk result (λ r. IsBegun settings.entry (S.items source.now) (Some journal.entry)
        (start_of (λ s. S.items s.now) r.0.controller) r.0.recorder) }
    ensures kept { IfOk result (λ r. HasRecorder settings.entry.unit (Some journal.entry) r.0.controller.state r.0.recorder) }
    ensures list { IfOk result (λ r. S.items r.0.controller.source.source.now ≡ S.items source.now) }
    ensures calls { IsAgain journal.entry → IfOk result (λ r.
        SaysOfList settings.entry (S.items source.now) (Some journal.entry) r.0.calls.items) }
    ensures apart { IfOk result (λ r. IsSomeAnd r.1 (IsApart settings.entry.asrun (name_of journal.entry))) }
    ensures refused { IsAgain journal.entry → IfErr result (IsUnkept settings.entry (S.items source.now) (Some journal.entry)) }
{
    let beginning = beginning_of(journal, settings.from);
    match begin_again(rt, journal.name(), heading, source, beginning) {
        Ok(begun) => Ok((begun, Some(apart))),
        Err(failure) => Err(failure),
    }
}

fn beginning_of(journal: RunJournal<'_>, from: Option<usize>) -> Beginning
    ensures beginning { result ≡ beginning_of journal.entry from }
    ensures said { said_event result ≡ from }
{
    match (journal, from) {
        (RunJournal::Left(_), Some(event)) => Beginning::Left(event),
        (_, Some(event)) => Beginning::From(event),
        (_, None) => Beginning::Next,
    }
}

// Only now that the journal exists can the as-run file be seen to be the same one, even by the same name.
fn begin_new<'a, 'r, 's, R: Files<File = File> + Clock + AllocGlobal, S: Source>(
    rt: &'r R,
    name: &'a str,
    heading: &Heading,
    source: &'s S,
    settings: RunSettings<'a>,
) -> Result<(Resumption<'a, 'r, R, &'s S>, Option<Apart<'a>>), Failure<'a>>
    requires unit { heading.now.unit ≤ 15 }
    requires heading { heading.now ≡ heading_for settings (S.items source.now) }
    requires some { 1 ≤ settings.limit }
    requires few { settings.limit ≤ 1000 }
    requires listed { first_event settings.from ≤ length (S.items source.now) }
    ensures controller { IfOk result (λ r. r.0.controller ≡ new_controller settings.entry source.entry) }
    ensures recorder { IfOk result (λ r. IfSome r.0.recorder
        (λ recorder. (recorder.name ≡ name.entry) × (recorder.unit ≡ heading.now.unit))) }
    ensures from { IfOk result (λ r. IfSome r.0.recorder (BeganWith (option_map Note.From settings.entry.from))) }
    ensures kept { IfOk result (λ r. IsSome r.0.recorder) }
    ensures calls { IfOk result (λ r. r.0.calls.items ≡ []) }
    ensures apart { IfOk result (λ r. IsSomeAnd r.1 (IsApart settings.entry.asrun name.entry)) }
    ensures refused { IfErr result (λ failure. IsUnbegun name.entry failure
        ⊎ IsPlaceRefused settings.entry.asrun failure) }
{
    let recorder = begin_journal(rt, name, heading, settings.from)?;
    match Apart::test(rt, settings.asrun, name) {
        Ok(apart) => {
            let begun = Resumption {
                controller: new_controller(source, settings),
                recorder: Some(recorder),
                runs: Vec::new(rt.alloc()),
                calls: Vec::new(rt.alloc()),
            };
            Ok((begun, Some(apart)))
        }
        Err(asrun) => {
            let _ = fs::remove_file(rt, name);
            Err(Failure::Exists(asrun))
        }
    }
}

fn new_controller<S: Source>(source: S, settings: RunSettings<'_>) -> Controller<Rest<S>>
    requires some { 1 ≤ settings.limit }
    requires few { settings.limit ≤ 1000 }
    requires listed { first_event settings.from ≤ length (S.items source) }
    ensures { result ≡ new_controller settings.entry source }
{
    let rest = Rest::new(source, settings.from.unwrap_or(0));
    match settings.mode {
        Mode::Plain => Controller::new(rest, settings.port, settings.limit),
        Mode::Confirming => Controller::confirming(rest, settings.port, settings.limit),
    }
}

fn heading_of<'a, R: AllocGlobal, S: Source>(
    rt: &R,
    source: &S,
    settings: RunSettings<'_>,
) -> Result<Heading, Failure<'a>>
    ensures heading { IfOk result (λ heading. heading ≡ heading_for settings.entry (S.items source.now)) }
    ensures refused { IfErr result (λ failure. failure ≡ Failure.Memory) }
{
    // (each part was read at this rate, so that only memory can be refused)
    let Ok(digest) = digest_of(rt.alloc(), source, settings.rate) else {
        return Err(Failure::Memory);
    };
    Ok(Heading {
        digest,
        mode: settings.mode,
        unit: settings.unit,
        port: settings.port,
        limit: settings.limit,
    })
}

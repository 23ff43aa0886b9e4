//! How the as-run file of a run is made.
ghost use Rattle.std.specs.Io.KnownBytes.{Appends};
ghost use Rattle.std.specs.Prelude.{◌≡◌, ◌+◌, ℕ, IfErr, IfOk, IfSome, OnOk, Some};
ghost use Rattle.vdcp_run.specs.Run.{IsAsrunMade, IsListed, IsSaved, IsUnlisted, IsUnwritten, name_of, reported_text, wanted_after};
ghost use Rattle.vdcp_run.specs.declared.settings.RunJournal.TheVariants as journals;

use crate::place::{Place, make_beside, not_made};
use crate::run_end::{LineEnd, Why};
use crate::saved::SavedText;
use crate::settings::{RunJournal, RunSettings};
use std::fs::{self, OpenFile};
use std::io::{self, ErrorKind};
use std::rt::Files;
use vdcp_auto::{Controller, Source};
use vdcp_files::keep_older;
use vdcp_journal_file::{Disk, append_safely, asrun_of_journal, sync_folder};
use vdcp_list::{Rest, write_events};
use vdcp_text::Failure;
use vdcp_value::Rate;

/// None if no as-run file is named, or the port wasn't empty. An older file stays until the new one is whole, and becomes
/// `NAME.~N~` if it has other bytes.
pub fn save_asrun<'a, R: Files + AllocGlobal, S: Source>(
    rt: &R,
    controller: &Controller<Rest<S>>,
    line: LineEnd,
    settings: RunSettings<'a>,
) -> Option<Result<SavedText<'a>, Failure<'a>>>
    ensures { IsAsrunMade settings.entry.rate settings.entry.journal (S.items controller.now.source.source)
        controller.now.source.from (controller.now.source.from + controller.now.state.settled)
        (wanted_after line settings.entry.asrun) result }
{
    if line == LineEnd::NotBegun(Why::Occupied) {
        return None;
    }
    let name = settings.asrun?;
    match listed(rt, controller, settings) {
        Ok(text) => Some(save_text(rt, name, text)),
        Err(failure) => Some(Err(failure)),
    }
}

/// That of a run whose last try came to nothing: its journal has all that it reports.
pub fn save_asrun_of_journal<'a, R: Files + AllocGlobal, S: Source>(
    rt: &R,
    events: &S,
    settings: RunSettings<'a>,
) -> Option<Result<SavedText<'a>, Failure<'a>>>
    ensures { IfSome settings.entry.journal (λ journal. (from reported : ℕ) → IsAsrunMade settings.entry.rate
        (Some (journals.Again (name_of journal))) (S.items events.now) from reported settings.entry.asrun result) }
{
    let (name, journal) = (settings.asrun?, settings.journal?);
    match asrun_of_journal(rt, journal.name(), events, settings.rate) {
        Ok(text) => Some(save_text(rt, name, text)),
        Err(failure) => Some(Err(failure)),
    }
}

// A journal that the run goes on with has the events of earlier runs too.
fn listed<'a, R: Files + AllocGlobal, S: Source>(
    rt: &R,
    controller: &Controller<Rest<S>>,
    settings: RunSettings<'a>,
) -> Result<Vec<u8>, Failure<'a>>
    ensures listed { IfOk result (λ text. IsListed settings.entry.rate settings.entry.journal
        (S.items controller.now.source.source) controller.now.source.from
        (controller.now.source.from + controller.now.state.settled) text.items) }
    ensures unlisted { IfErr result (IsUnlisted settings.entry.journal) }
{
    let events = controller.source().whole();
    match settings.journal {
        Some(RunJournal::Older(name)) => asrun_of_journal(rt, name, events, settings.rate),
        Some(RunJournal::Again(name)) => asrun_of_journal(rt, name, events, settings.rate),
        Some(RunJournal::Left(name)) => asrun_of_journal(rt, name, events, settings.rate),
        Some(RunJournal::New(_)) => reported(rt, controller, settings.rate),
        None => reported(rt, controller, settings.rate),
    }
}

fn reported<'a, R: AllocGlobal, S: Source>(
    rt: &R,
    controller: &Controller<Rest<S>>,
    rate: Rate,
) -> Result<Vec<u8>, Failure<'a>>
    ensures text { IfOk result (λ text. text.items ≡ reported_text rate (S.items controller.now.source.source)
        controller.now.source.from (controller.now.source.from + controller.now.state.settled)) }
    ensures memory { IfErr result (λ failure. failure ≡ Failure.Memory) }
{
    let alloc = rt.alloc();
    let rest = controller.source();
    let mut text = Vec::new(alloc);
    // (the text is written to memory, and each part of a list was read at this rate)
    match write_events(
        alloc,
        rest.whole(),
        rate,
        rest.from(),
        controller.settled(),
        &mut text,
    ) {
        Ok(()) => Ok(text),
        Err(_) => Err(Failure::Memory),
    }
}

fn save_text<'a, R: Files + AllocGlobal>(
    rt: &R,
    name: &'a str,
    text: Vec<u8>,
) -> Result<SavedText<'a>, Failure<'a>>
    ensures saved { IfOk result (IsSaved name.entry text.items) }
    ensures unwritten { IfErr result (IsUnwritten name.entry) }
{
    match Place::of(rt, name) {
        Ok(Place::Free(whole)) => save_beside(rt, name, whole.as_str(), text),
        Ok(Place::Taken(whole)) => match SavedText::find(rt, name, text.as_slice()) {
            Some(saved) => Ok(saved),
            None => save_beside(rt, name, whole.as_str(), text),
        },
        Ok(Place::Device) => SavedText::create(rt, name, text),
        Err(error) => Err(not_made(&error, name)),
    }
}

fn save_beside<'a, R: Files + AllocGlobal>(
    rt: &R,
    name: &'a str,
    whole: &str,
    text: Vec<u8>,
) -> Result<SavedText<'a>, Failure<'a>>
    ensures saved { IfOk result (IsSaved name.entry text.items) }
    ensures unwritten { IfErr result (IsUnwritten name.entry) }
{
    let (mut file, beside) = match make_beside(rt, whole) {
        Ok(made) => made,
        Err(error) => return Err(not_made(&error, name)),
    };
    let saved = fill(rt, name, &mut file, beside.as_str(), whole, text);
    if saved.is_err() {
        let _ = fs::remove_file(rt, beside.as_str());
    }
    saved
}

fn fill<'a, R: Files + AllocGlobal, D: Disk + OpenFile>(
    rt: &R,
    name: &'a str,
    file: &mut D,
    beside: &str,
    whole: &str,
    text: Vec<u8>,
) -> Result<SavedText<'a>, Failure<'a>>
    ensures safe { OnOk result (Appends (D.written file.old) (D.safe file.new) text.items) }
    ensures saved { IfOk result (IsSaved name.entry text.items) }
    ensures unwritten { IfErr result (IsUnwritten name.entry) }
{
    if append_safely(file, text.as_slice()).is_err() {
        return Err(Failure::Write(name));
    }
    match take_name(rt, name, file, beside, whole, text) {
        Ok(saved) => Ok(saved),
        Err(error) if error.kind() == ErrorKind::OutOfMemory => Err(Failure::Memory),
        Err(_) => Err(Failure::Write(name)),
    }
}

// Keeps the older file's permissions; the older file becomes `NAME.~N~`.
fn take_name<'a, R: Files + AllocGlobal, D: Disk + OpenFile>(
    rt: &R,
    name: &'a str,
    file: &D,
    beside: &str,
    whole: &str,
    text: Vec<u8>,
) -> io::Result<SavedText<'a>>
    requires { D.safe file.now ≡ D.written file.now }
    ensures { IfOk result (IsSaved name.entry text.items) }
{
    let mut kept = None;
    if let Ok(older) = fs::metadata(rt, whole) {
        let _ = file.set_permissions(older.permissions());
        kept = keep_older(rt, whole)?;
    }
    match (SavedText::rename(rt, name, beside, whole, text), kept) {
        (Ok(saved), _) => {
            sync_folder(rt, whole);
            Ok(saved)
        }
        (Err(error), None) => Err(error),
        (Err(error), Some(kept)) => {
            let _ = fs::remove_file(rt, kept.as_str());
            Err(error)
        }
    }
}

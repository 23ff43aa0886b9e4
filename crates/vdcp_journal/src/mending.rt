//! The rows that a killed run gets before it goes on.
ghost use Rattle.std.specs.Prelude.{◌≡◌, ◌++◌, IfOk, OnOk};
ghost use Rattle.vdcp_auto.specs.Plan.{plan_of};
ghost use Rattle.vdcp_journal.specs.Mending.{after_notes, announced_state, free_state, is_end, is_said, loss_at, mended_at, unkept_at};
ghost use Rattle.vdcp_journal.specs.Thinned.{heard_after};

use crate::replay::give;
use crate::row::Note;
use std::alloc::{AllocError, Global};
use vdcp_auto::{Controller, Heard, Outcome, Phase, Source, Standing};
use vdcp_words::state::{CUE_DONE, PLAYING};
use vdcp_words::{Command, Reply};

/// The notes that a killed run gets before it goes on: a command that may have gone out without its row, behind a state
/// that lets it go out; and that the run was lost, if it was. `controller` is what the rows make, `last` the journal's
/// last note, and `heard` what `heard_after` gives.
pub fn mended<S: Source + Drop>(
    alloc: Global,
    mut controller: Controller<S>,
    last: Option<Note>,
    heard: Option<Heard>,
) -> Result<Vec<Note>, AllocError>
    ensures { IfOk result (λ notes. notes.items
        ≡ mended_at (plan_of S.items controller) controller.state last heard) }
{
    let mut notes = unkept(alloc, &controller, heard)?;
    let said = is_said(notes.as_slice(), last);
    give_all(&mut controller, notes.as_slice());
    add_loss(controller, said, &mut notes)?;
    Ok(notes)
}

// The next command may have gone out without its row if it asks for the state or is a PLAY; and a PLAY may have
// followed if the last state announces it.
fn unkept<S: Source>(
    alloc: Global,
    controller: &Controller<S>,
    heard: Option<Heard>,
) -> Result<Vec<Note>, AllocError>
    ensures { IfOk result (λ notes. notes.items ≡ unkept_at (plan_of S.items controller.now) controller.now.state heard) }
{
    let mut notes = Vec::new(alloc);
    match (
        controller.awaited(),
        controller.to_send(),
        announced(controller, heard),
    ) {
        (Some(_), _, Some(state)) => {
            notes.push(Note::Heard(state))?;
            notes.push(Note::Sent(Command::Play))?;
        }
        (Some(_), _, None) => {}
        (None, Some(asks @ Command::Status(_)), Some(state)) => {
            notes.push(Note::Sent(asks))?;
            notes.push(Note::Heard(state))?;
            notes.push(Note::Sent(Command::Play))?;
        }
        (None, Some(next @ (Command::Status(_) | Command::Play)), _) => {
            notes.push(Note::Sent(next))?;
        }
        (None, _, _) => {}
    }
    Ok(notes)
}

// A state with the cue done while a clip plays announces a PLAY, which goes out after one in which nothing plays.
fn announced<S: Source>(controller: &Controller<S>, heard: Option<Heard>) -> Option<Heard>
    ensures { result ≡ announced_state heard controller.now.state.stage }
{
    match controller.snapshot().standing {
        Standing::Ready(Phase::Wait(_)) | Standing::Awaiting(Phase::Wait(_)) => free_state(heard),
        _ => None,
    }
}

fn free_state(heard: Option<Heard>) -> Option<Heard>
    ensures { result ≡ free_state heard }
{
    match heard {
        Some(Heard::Reply(Reply::State(groups, Some(state)))) if state & CUE_DONE != 0 => {
            Some(Heard::Reply(Reply::State(groups, Some(state & !PLAYING))))
        }
        _ => None,
    }
}

fn give_all<S: Source>(controller: &mut Controller<S>, notes: &[Note])
    ensures { controller.new ≡ record controller.old {
      state = after_notes (plan_of S.items controller.old) controller.old.state notes.now;
    } }
{
    match notes {
        [] => {}
        [note, rest @ ..] => {
            give(controller, note);
            give_all(controller, rest);
        }
    }
}

fn is_said(notes: &[Note], last: Option<Note>) -> bool
    ensures { result ≡ is_said notes.now last }
{
    match notes {
        [] => is_end(last),
        [_, ..] => false,
    }
}

fn add_loss<S: Source + Drop>(
    mut controller: Controller<S>,
    said: bool,
    notes: &mut Vec<Note>,
) -> Result<(), AllocError>
    ensures { OnOk result (notes.new.items ≡ notes.old.items
        ++ loss_at (plan_of S.items controller) controller.state said) }
{
    let asked = controller.awaited().is_some();
    controller.timeout();
    if said || controller.outcome() != Some(Outcome::Lost) {
        return Ok(());
    }
    if asked {
        notes.push(Note::Silence)?;
    }
    notes.push(Note::End(Outcome::Lost))?;
    Ok(())
}

pub fn is_end(last: Option<Note>) -> bool
    ensures { result ≡ is_end last }
{
    matches!(last, Some(Note::End(_)))
}

/// What was heard last, one note later: a question for the state keeps it, and any other note drops or replaces it.
pub fn heard_after(before: Option<Heard>, note: &Note) -> Option<Heard>
    ensures { result ≡ heard_after before note.now }
{
    match note {
        Note::Sent(Command::Status(_)) => before,
        Note::Heard(heard) => Some(*heard),
        _ => None,
    }
}

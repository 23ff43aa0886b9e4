//! The judge as a struct, and the calls that it takes.
ghost use Rattle.std.specs.Prelude.{ℕ, ◌≡◌, ◌≢◌, ◌≤◌, ◌↔◌, [], pos, List, Some, None, IfSome, IsSome, IsTrue};
ghost use Rattle.vdcp_auto.specs.Heard.{heard_as};
ghost use Rattle.vdcp_auto.specs.RuleBook.{May};
ghost use Rattle.vdcp_auto.specs.declared.exchange.Exchange.{Exchange};
ghost use Rattle.vdcp_frame.specs.Message.{Content};
ghost use Rattle.vdcp_value.specs.declared.part.Item.{Item};
ghost use Rattle.vdcp_words.specs.declared.command.Command.{Command};
ghost use Rattle.vdcp_auto.specs.declared.notes.Notes.{Notes};
ghost use Rattle.vdcp_c.specs.Commands.{IsCommand};
ghost use Rattle.vdcp_c.specs.Controllers.{mode_code};
ghost use Rattle.vdcp_c.specs.Judgings.{IsAdded, IsNotes, KnowsOf};
ghost use Rattle.vdcp_c.specs.Lists.{items_of};
ghost use Rattle.vdcp_c.specs.Told.{IsContent, bad_command, bad_message, bad_state, bad_value};

use crate::code::{BAD_COMMAND, BAD_MESSAGE, BAD_STATE, BAD_VALUE, OK};
use crate::command::{command_in, vdcp_command};
use crate::controller::{code_of_mode, mode_in};
use crate::item::vdcp_item;
use crate::list::LentList;
use crate::message::{message_in, vdcp_message};
use vdcp_auto::{Exchange, Heard, Judge, LastCue, Mode, Notes};
use vdcp_words::Command;

/// A judge: all that it knows of the exchanges that it was given.
#[repr(C)]
#[derive(Clone, Copy)]
pub struct vdcp_judging {
    /// 1 plain, 2 confirming.
    pub mode: u8,
    pub has_open_play: u8,
    pub may_have_aired: u8,
    pub stopped: u8,
    pub closed: u8,
    pub granted: u8,
    /// 0 void, 1 stands, 2 done.
    pub last_cue: u8,
    pub unused: u8,
    pub settled: u64,
}

fn notes_in(j: &vdcp_judging) -> Option<Notes>
    ensures some { IfSome result (IsNotes j.now) }
    ensures accepts { (n : Notes) → IsNotes j.now n → IsSome result }
{
    let last_cue = match j.last_cue {
        0 => LastCue::Void,
        1 => LastCue::Stands,
        2 => LastCue::Done,
        _ => return None,
    };
    if !are_flags(j) {
        return None;
    }
    Some(Notes {
        mode: mode_in(j.mode)?,
        settled: j.settled as usize,
        has_open_play: j.has_open_play == 1,
        may_have_aired: j.may_have_aired == 1,
        stopped: j.stopped == 1,
        closed: j.closed == 1,
        granted: j.granted == 1,
        last_cue,
    })
}

fn are_flags(j: &vdcp_judging) -> bool
    ensures { IsTrue result ↔ ((j.now.has_open_play ≤ 1) × (j.now.may_have_aired ≤ 1) × (j.now.stopped ≤ 1)
        × (j.now.closed ≤ 1) × (j.now.granted ≤ 1)) }
{
    j.has_open_play <= 1
        && j.may_have_aired <= 1
        && j.stopped <= 1
        && j.closed <= 1
        && j.granted <= 1
}

fn put(notes: &Notes, j: &mut vdcp_judging)
    ensures { IsNotes j.new notes.now }
{
    j.mode = code_of_mode(notes.mode);
    j.settled = notes.settled as u64;
    j.has_open_play = u8::from(notes.has_open_play);
    j.may_have_aired = u8::from(notes.may_have_aired);
    j.stopped = u8::from(notes.stopped);
    j.closed = u8::from(notes.closed);
    j.granted = u8::from(notes.granted);
    j.last_cue = match notes.last_cue {
        LastCue::Void => 0,
        LastCue::Stands => 1,
        LastCue::Done => 2,
    };
}

#[unsafe(no_mangle)]
pub extern "C" fn vdcp_judging_new(j: &mut vdcp_judging, mode: u8) -> i32
    ensures new { result ≡ pos 0 → (n : Notes) × IsNotes j.new n × (mode_code n.mode ≡ mode)
        × ((rows : List vdcp_item) → KnowsOf (items_of rows) [] n) }
    ensures accepts { 1 ≤ mode → mode ≤ 2 → result ≡ pos 0 }
    ensures refused { result ≢ pos 0 → (result ≡ bad_value) × (j.new ≡ j.old) }
{
    let Some(mode) = mode_in(mode) else {
        return BAD_VALUE;
    };
    put(&new_notes(mode), j);
    OK
}

fn new_notes(mode: Mode) -> Notes
    ensures mode { result.mode ≡ mode }
    ensures knows { (list : List Item) → KnowsOf list [] result }
{
    Notes {
        mode,
        settled: 0,
        has_open_play: false,
        may_have_aired: false,
        stopped: false,
        closed: false,
        granted: false,
        last_cue: LastCue::Void,
    }
}

#[unsafe(no_mangle)]
pub extern "C" fn vdcp_judging_allows(
    j: &vdcp_judging,
    list: &[vdcp_item],
    command: &vdcp_command,
    allowed: &mut u8,
) -> i32
    ensures ruled { result ≡ pos 0 → (n : Notes) × (c : Command) × IsNotes j.now n × IsCommand command.now c
        × ((log : List Exchange) → KnowsOf (items_of list.now) log n →
        ((allowed.new ≡ 1) ↔ May n.mode (items_of list.now) log c)) }
    ensures flag { result ≡ pos 0 → allowed.new ≤ 1 }
    ensures accepts { (n : Notes) (c : Command) → IsNotes j.now n → IsCommand command.now c → result ≡ pos 0 }
    ensures refused { result ≢ pos 0 → allowed.new ≡ allowed.old }
{
    let Some(notes) = notes_in(j) else {
        return BAD_STATE;
    };
    let Some(c) = command_in(command) else {
        return BAD_COMMAND;
    };
    *allowed = u8::from(allows(&notes, list, &c));
    OK
}

fn allows(notes: &Notes, list: &[vdcp_item], c: &Command) -> bool
    ensures { (log : List Exchange) → KnowsOf (items_of list.now) log notes.now →
        (IsTrue result ↔ May notes.now.mode (items_of list.now) log c.now) }
{
    Judge::of_notes(LentList::of(list), notes).allows(c)
}

fn after(notes: &Notes, list: &[vdcp_item], exchange: &Exchange) -> Notes
    ensures { IsAdded (items_of list.now) notes.now exchange.now result }
{
    let mut judge = Judge::of_notes(LentList::of(list), notes);
    judge.add(exchange);
    judge.notes()
}

#[unsafe(no_mangle)]
pub extern "C" fn vdcp_judging_add(
    j: &mut vdcp_judging,
    list: &[vdcp_item],
    command: &vdcp_command,
    message: &vdcp_message,
    unit: u8,
) -> i32
    ensures added { result ≡ pos 0 → (n m : Notes) × (c : Command) × (content : Content) × IsNotes j.old n
        × IsCommand command.now c × IsContent message.now content × IsNotes j.new m
        × IsAdded (items_of list.now) n (record { command = c; heard = Some (heard_as unit content) }) m }
    ensures accepts { (n : Notes) (c : Command) (content : Content) → IsNotes j.old n → IsCommand command.now c →
        IsContent message.now content → result ≡ pos 0 }
    ensures refused { result ≢ pos 0 → j.new ≡ j.old }
{
    let Some(notes) = notes_in(j) else {
        return BAD_STATE;
    };
    let Some(command) = command_in(command) else {
        return BAD_COMMAND;
    };
    let Some(message) = message_in(message) else {
        return BAD_MESSAGE;
    };
    let heard = Some(Heard::of_message(&message, unit));
    put(&after(&notes, list, &Exchange { command, heard }), j);
    OK
}

#[unsafe(no_mangle)]
pub extern "C" fn vdcp_judging_add_silence(
    j: &mut vdcp_judging,
    list: &[vdcp_item],
    command: &vdcp_command,
) -> i32
    ensures added { result ≡ pos 0 → (n m : Notes) × (c : Command) × IsNotes j.old n
        × IsCommand command.now c × IsNotes j.new m
        × IsAdded (items_of list.now) n (record { command = c; heard = None }) m }
    ensures accepts { (n : Notes) (c : Command) → IsNotes j.old n → IsCommand command.now c → result ≡ pos 0 }
    ensures refused { result ≢ pos 0 → j.new ≡ j.old }
{
    let Some(notes) = notes_in(j) else {
        return BAD_STATE;
    };
    let Some(command) = command_in(command) else {
        return BAD_COMMAND;
    };
    put(
        &after(
            &notes,
            list,
            &Exchange {
                command,
                heard: None,
            },
        ),
        j,
    );
    OK
}

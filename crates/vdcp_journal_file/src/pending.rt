//! The rows that are held back, and why rows aren't written.
ghost use Rattle.std.specs.Option.{option_copied, option_to_list};
ghost use Rattle.std.specs.Prelude.{◌≡◌, ◌≤◌, ◌⊎◌, ◌++◌, Err, IfErr, IfNone, IfOk, IfSome, OnOk, Some, false, true};
ghost use Rattle.vdcp_journal.specs.Rows.{AreBytesOf, rows_text};
ghost use Rattle.vdcp_journal_file.specs.Recording.{FitHeldRows, IsUnwritten, end_note, ended, failure_of, is_announced, rows_left, says_nothing_new, seen_before, seen_last, seen_of, is_again, with_play};
ghost use Rattle.vdcp_journal_file.specs.declared.pending.Pending.TheVariants.{Failed};
ghost use Rattle.vdcp_journal_file.specs.declared.pending.RecordFault.{RecordFault};
ghost use Rattle.vdcp_journal_file.specs.declared.pending.RecordFault.TheVariants.{Memory};

use arrayvec::ArrayVec;
use std::alloc::{AllocError, Global};
use thiserror::Error;
use vdcp_auto::Heard;
use vdcp_journal::{Moment, Note, Row, write_row};
use vdcp_text::Failure;
use vdcp_words::state::{CUE_DONE, PLAYING};
use vdcp_words::{Command, LONGEST, Reply};

#[derive(Clone, Copy)]
pub struct Seen {
    /// The groups that were asked for, as a bitmap.
    pub asked: u8,
    /// The groups that came, as a bitmap.
    pub groups: u8,
    pub state: u8,
}

/// What is still to be written to a journal.
#[derive(Clone, Copy)]
pub enum Pending {
    Nothing,
    /// What ended the last exchange, or the event that the run begins with.
    End(Row),
    /// The state that stands last in the file, if one was seen just before, and the row that asks again.
    Asked(Option<Seen>, Row),
    Answered(Option<Seen>, Row, Row),
    /// The state that stands last in the file announces the PLAY.
    Played(Seen, Row, Row, Row),
    /// The same, and what ended the PLAY's exchange.
    Over(Seen, Row, Row, Row, Row),
    /// Nothing more is written: this befell the journal.
    Failed(RecordFault),
}

/// The bytes of the commands whose rows are held back; those that are None are made for the row.
#[derive(Drop)]
pub struct HeldBytes {
    pub asks: Option<ArrayVec<u8, LONGEST>>,
    pub plays: Option<ArrayVec<u8, LONGEST>>,
}

impl Pending {
    /// Adds what ended an exchange: it takes the place of an end that is still pending.
    pub(crate) fn ended(self, time: Moment, heard: Option<Heard>) -> Pending
        ensures { result ≡ ended self (record { time = time; note = end_note heard }) }
    {
        let note = match heard {
            Some(heard) => Note::Heard(heard),
            None => Note::Silence,
        };
        let row = Row { time, note };
        match self {
            Pending::Nothing | Pending::End(_) => Pending::End(row),
            Pending::Asked(before, asks) | Pending::Answered(before, asks, _) => {
                Pending::Answered(before, asks, row)
            }
            Pending::Played(before, asks, hears, plays)
            | Pending::Over(before, asks, hears, plays, _) => {
                Pending::Over(before, asks, hears, plays, row)
            }
            Pending::Failed(fault) => Pending::Failed(fault),
        }
    }

    pub(crate) fn add_to(
        self,
        alloc: Global,
        unit: u8,
        held: &HeldBytes,
        text: &mut Vec<u8>,
    ) -> Result<(), RecordFault>
        requires unit { unit ≤ 15 }
        requires held { FitHeldRows unit held.now self }
        ensures added { OnOk result (text.new.items ≡ text.old.items ++ rows_text unit (rows_left self)) }
        ensures refused { (fault : RecordFault) → self ≡ Failed fault → result ≡ Err fault }
        ensures faults { IfErr result (λ fault. (fault ≡ Memory) ⊎ (self ≡ Failed fault)) }
    {
        match self {
            Pending::Nothing => {}
            Pending::End(row) => write_row(alloc, unit, &row, None, text)?,
            Pending::Asked(_, asks) => {
                write_row(alloc, unit, &asks, held.asks.as_ref(), text)?;
            }
            Pending::Answered(_, asks, hears) => {
                write_row(alloc, unit, &asks, held.asks.as_ref(), text)?;
                write_row(alloc, unit, &hears, None, text)?;
            }
            Pending::Played(_, asks, hears, plays) => {
                write_row(alloc, unit, &asks, held.asks.as_ref(), text)?;
                write_row(alloc, unit, &hears, None, text)?;
                write_row(alloc, unit, &plays, held.plays.as_ref(), text)?;
            }
            Pending::Over(_, asks, hears, plays, row) => {
                write_row(alloc, unit, &asks, held.asks.as_ref(), text)?;
                write_row(alloc, unit, &hears, None, text)?;
                write_row(alloc, unit, &plays, held.plays.as_ref(), text)?;
                write_row(alloc, unit, &row, None, text)?;
            }
            Pending::Failed(fault) => return Err(fault),
        }
        Ok(())
    }

    pub(crate) fn seen_last(self) -> Option<Seen>
        ensures { result ≡ seen_last self }
    {
        match self {
            Pending::Answered(_, asks, hears) => seen_of(asks.note, hears.note),
            Pending::Nothing
            | Pending::End(_)
            | Pending::Asked(_, _)
            | Pending::Played(_, _, _, _)
            | Pending::Over(_, _, _, _, _)
            | Pending::Failed(_) => None,
        }
    }

    /// What was seen before what is pending: it stands last in the file.
    fn seen_before(self) -> Option<Seen>
        ensures { result ≡ seen_before self }
    {
        match self {
            Pending::Asked(before, _) | Pending::Answered(before, _, _) => before,
            Pending::Played(before, _, _, _) | Pending::Over(before, _, _, _, _) => Some(before),
            Pending::Nothing | Pending::End(_) | Pending::Failed(_) => None,
        }
    }

    /// Whether what is pending says nothing new: the same state was seen twice, and is asked for again.
    pub(crate) fn says_nothing_new(self, next: Note) -> bool
        ensures { result ≡ says_nothing_new self next }
    {
        is_again(self.seen_before(), self.seen_last(), next)
    }

    /// Adds this row if it is of an announced PLAY.
    pub(crate) fn with_play(self, row: Row) -> Option<Pending>
        ensures held { IfSome result (λ held. (held ≡ with_play self row) × (is_announced self row.note ≡ true)) }
        ensures unannounced { IfNone result (is_announced self row.note ≡ false) }
    {
        match (self, row.note) {
            (Pending::Answered(Some(before), asks, hears), Note::Sent(Command::Play))
                if before.state & CUE_DONE != 0 && before.state & PLAYING != 0 => {
                Some(Pending::Played(before, asks, hears, row))
            }
            _ => None,
        }
    }
}

fn is_again(before: Option<Seen>, last: Option<Seen>, next: Note) -> bool
    ensures { result ≡ is_again before last next }
{
    match (before, last, next) {
        (Some(before), Some(last), Note::Sent(Command::Status(asked))) => {
            before.asked == last.asked
                && before.groups == last.groups
                && before.state == last.state
                && asked == before.asked
        }
        _ => false,
    }
}

fn seen_of(asks: Note, hears: Note) -> Option<Seen>
    ensures { result ≡ seen_of asks hears }
{
    match (asks, hears) {
        (
            Note::Sent(Command::Status(asked)),
            Note::Heard(Heard::Reply(Reply::State(groups, Some(state)))),
        ) => {
            Some(Seen {
                asked,
                groups,
                state,
            })
        }
        _ => None,
    }
}

/// Why rows aren't written. The journal ends there.
#[derive(Clone, Copy, Debug, PartialEq, Eq, Error)]
pub enum RecordFault {
    /// A beginning of the rows may be there.
    #[error("the file failed")]
    Device,
    /// The file was removed or moved, or another has its name. None of the rows is there.
    #[error("not the file that was opened")]
    Replaced,
    #[error("out of memory")]
    Memory,
}

impl From<AllocError> for RecordFault {
    ghost use Rattle.std.specs.Prelude.{◌≡◌};
    ghost use Rattle.vdcp_journal_file.specs.declared.pending.RecordFault.TheVariants.{Memory};

    ghost from_gives = { λ _ fault. fault ≡ Memory };

    fn from(_: AllocError) -> RecordFault {
        RecordFault::Memory
    }
}

impl RecordFault {
    pub(crate) fn failure<'a>(self, name: &'a str) -> Failure<'a>
        ensures failure { result ≡ failure_of name.entry self }
        ensures unwritten { IsUnwritten name.entry result }
    {
        match self {
            RecordFault::Device | RecordFault::Replaced => Failure::Write(name),
            RecordFault::Memory => Failure::Memory,
        }
    }
}

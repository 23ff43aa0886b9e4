//! The fields in which a journal writes a note.
ghost use Rattle.std.specs.Option.{option_copied};
ghost use Rattle.std.specs.Prelude.{◌≡◌, ◌≤◌, [], ◌∷◌, IfSome, decimal, length};
ghost use Rattle.hex.specs.Hex.{encode_lower};
ghost use Rattle.vdcp_journal.specs.Rows.{AreBytesOf, note_fields, outcome_fields};

use crate::row::Note;
use arrayvec::{ArrayString, ArrayVec};
use std::str;
use vdcp_auto::{Heard, ListCall, Outcome};
use vdcp_words::LONGEST;

// `word` is borrowed as the rest is, so that all can stand in one array.
#[derive(Drop)]
pub(crate) struct NoteFields<'a> {
    pub word: &'a str,
    /// It is for people; or says how the controller ended, or is the event with which a run begins or with which what is
    /// left out begins.
    pub text: ArrayString<64>,
    /// It is the bytes on the line, in hexadecimal digits; or the number of an event.
    pub detail: ArrayString<64>,
}

/// `bytes` are those of the note's command to this unit; if they are None, they are made here.
pub(crate) fn fields_of<'a>(
    unit: u8,
    note: &Note,
    bytes: Option<&ArrayVec<u8, LONGEST>>,
) -> NoteFields<'a>
    requires unit { unit ≤ 15 }
    requires spelled { IfSome (option_copied bytes) (λ b. AreBytesOf unit b.items note.now) }
    ensures { result.word.now ∷ result.text.bytes ∷ result.detail.bytes ∷ [] ≡ note_fields unit note.now }
{
    let mut text = ArrayString::new();
    let mut detail = ArrayString::new();
    let word = match note {
        Note::Sent(command) => {
            command.show(&mut text);
            match bytes {
                Some(bytes) => push_hex(&mut detail, bytes.as_slice()),
                None => push_hex(&mut detail, command.encode(unit).as_slice()),
            }
            "sent"
        }
        Note::Heard(Heard::Reply(reply)) => {
            reply.show(&mut text);
            push_hex(&mut detail, reply.encode(unit).as_slice());
            "heard"
        }
        Note::Heard(Heard::Other) => {
            text.push_str("other");
            "heard"
        }
        Note::Silence => "silence",
        Note::Take => "take",
        Note::Stop => "stop",
        Note::List(ListCall::Hold) => "hold",
        Note::List(ListCall::Go) => "go",
        Note::List(ListCall::Skip { first, end }) => {
            push_number(&mut text, *first);
            push_number(&mut detail, *end);
            "skip"
        }
        Note::End(outcome) => {
            show_outcome(outcome, &mut text, &mut detail);
            "end"
        }
        Note::From(event) => {
            push_number(&mut text, *event);
            "from"
        }
        Note::Left(event) => {
            push_number(&mut text, *event);
            "left"
        }
    };
    NoteFields { word, text, detail }
}

fn show_outcome(outcome: &Outcome, text: &mut ArrayString<64>, detail: &mut ArrayString<64>)
    requires text { text.old.bytes ≡ [] }
    requires detail { detail.old.bytes ≡ [] }
    ensures { text.new.bytes ∷ detail.new.bytes ∷ [] ≡ outcome_fields outcome.now }
{
    match outcome {
        Outcome::Done => text.push_str("done"),
        Outcome::Stopped => text.push_str("stopped"),
        Outcome::Lost => text.push_str("lost"),
        Outcome::Denied => text.push_str("denied"),
        Outcome::Missing(k) => {
            text.push_str("missing");
            push_number(detail, *k);
        }
        Outcome::Refused(k) => {
            text.push_str("refused");
            push_number(detail, *k);
        }
        Outcome::Foreign(k) => {
            text.push_str("foreign");
            push_number(detail, *k);
        }
        Outcome::Strange(k) => {
            text.push_str("strange");
            push_number(detail, *k);
        }
    }
}

pub(crate) fn push_hex(text: &mut ArrayString<64>, bytes: &[u8])
    requires empty { text.old.bytes ≡ [] }
    requires short { length bytes.now ≤ 32 }
    ensures { text.new.bytes ≡ encode_lower bytes.now }
{
    let mut room = [0; 64];
    let digits = &mut room[..2 * bytes.len()];
    hex::encode_to_slice(bytes, digits).unwrap();
    text.push_str(str::from_utf8(digits).unwrap());
}

pub(crate) fn push_number(text: &mut ArrayString<64>, number: usize)
    requires { text.old.bytes ≡ [] }
    ensures { text.new.bytes ≡ decimal number }
{
    let mut buffer = itoa::Buffer::new();
    text.push_str(buffer.format(number));
}

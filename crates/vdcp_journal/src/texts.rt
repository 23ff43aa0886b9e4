//! How the fields of a row are read.
ghost use Rattle.hex.specs.Hex.{encode_lower};
ghost use Rattle.std.specs.Prelude.{◌≡◌, ◌<◌, ◌≤◌, ◌^◌, ◌∷◌, [], ℕ, All, List, IfSome, Some, codes, decimal, length, option_copied, option_map};
ghost use Rattle.vdcp_auto.specs.declared.list_call.ListCall.{ListCall};
ghost use Rattle.vdcp_auto.specs.declared.outcome.Outcome.{Outcome};
ghost use Rattle.vdcp_frame.specs.Message.{Content, Fits, content_of, spelling};
ghost use Rattle.vdcp_journal.specs.Reading.{IsWritableNote, IsWritableOutcome};
ghost use Rattle.vdcp_journal.specs.Rows.{call_fields, note_fields, outcome_fields};
ghost use Rattle.vdcp_auto.specs.declared.exchange.Heard.{Heard};
ghost use Rattle.vdcp_journal.specs.declared.row.Note.TheVariants as note;
ghost use Rattle.vdcp_journal.specs.declared.row.Note.{Note};
ghost use Rattle.vdcp_value.specs.Bytes.{AreBytes};
ghost use Rattle.vdcp_words.specs.Commands.{IsWritableCommand, command_message};
ghost use Rattle.vdcp_words.specs.Replies.{IsWritableReply, reply_message};
ghost use Rattle.vdcp_words.specs.declared.command.Command.{Command};
ghost use Rattle.vdcp_words.specs.declared.reply.Reply.{Reply};

use crate::fields::push_hex;
use crate::row::Note;
use arrayvec::ArrayString;
use std::str;
use vdcp_auto::{Heard, ListCall, Outcome};
use vdcp_frame::laws::{
    a_spelling_is_its_message, no_spelling_begins_another, one_spelling, what_is_spelt_is_bytes,
};
use vdcp_frame::{Message, Step, read_at};
use vdcp_value::laws::bytes_are_counted;
use vdcp_words::laws::{
    command_is_read_first, reply_is_read_first, written_command_is_read, written_reply_is_read,
};
use vdcp_words::{Command, Reply};

// No zero may stand before it.
pub(crate) fn number_in(text: &[u8]) -> Option<usize>
    ensures some { IfSome result (λ number. decimal number ≡ text.now) }
    ensures found { (number : ℕ) → number < 2 ^ 64 → decimal number ≡ text.now → result ≡ Some number }
{
    let Ok(digits) = str::from_utf8(text) else {
        return None;
    };
    let Ok(number) = digits.parse::<usize>() else {
        return None;
    };
    let mut buffer = itoa::Buffer::new();
    if buffer.format(number) != digits {
        return None;
    }
    Some(number)
}

fn digits_of(digest: &[u8; 32]) -> ArrayString<64>
    ensures digits { result.bytes ≡ encode_lower digest.now }
    ensures bytes { AreBytes 32 digest.now }
{
    bytes_are_counted();
    let mut digits = ArrayString::new();
    push_hex(&mut digits, digest);
    digits
}

pub(crate) fn digest_in(text: &[u8]) -> Option<[u8; 32]>
    ensures some { IfSome result (λ digest. encode_lower digest ≡ text.now) }
    ensures bytes { IfSome result (AreBytes 32) }
    ensures found { (digest : List ℕ) → AreBytes 32 digest → encode_lower digest ≡ text.now → result ≡ Some digest }
{
    bytes_are_counted();
    let mut digest = [0; 32];
    if hex::decode_to_slice(text, digest.as_mut_slice()).is_err() {
        return None;
    }
    if digits_of(&digest).as_bytes() != text {
        return None;
    }
    Some(digest)
}

const LONGEST: usize = 258;

fn bytes_in<'a>(digits: &[u8], room: &'a mut [u8; 258]) -> Option<&'a [u8]>
    ensures { (bytes : List ℕ) → All (λ byte. byte < 256) bytes → length bytes ≤ 258 → encode_lower bytes ≡ digits.now →
        option_copied result ≡ Some bytes }
{
    let count = digits.len() / 2;
    if count > LONGEST {
        return None;
    }
    let bytes = &mut room[..count];
    if hex::decode_to_slice(digits, bytes).is_err() {
        return None;
    }
    Some(bytes)
}

fn message_in<'a>(digits: &[u8], room: &'a mut [u8; 258]) -> Option<Message<'a>>
    ensures { (message : Content) → Fits message → encode_lower (spelling message) ≡ digits.now →
        option_map content_of result ≡ Some message }
{
    a_spelling_is_its_message();
    no_spelling_begins_another();
    one_spelling();
    what_is_spelt_is_bytes();
    let Some(bytes) = bytes_in(digits, room) else {
        return None;
    };
    match read_at(bytes, 0) {
        Step::Message(message, _) => Some(message),
        Step::Clean | Step::Cut(_) | Step::Fault(_, _) => None,
    }
}

fn command_in(unit: u8, digits: &[u8]) -> Option<Command>
    requires { unit ≤ 15 }
    ensures writable { IfSome result IsWritableCommand }
    ensures found { (command : Command) → IsWritableCommand command →
        encode_lower (spelling (command_message unit command)) ≡ digits.now → result ≡ Some command }
{
    command_is_read_first();
    written_command_is_read();
    let mut room = [0; LONGEST];
    match message_in(digits, &mut room) {
        Some(message) => Command::read(&message).ok(),
        None => None,
    }
}

fn reply_in(unit: u8, digits: &[u8]) -> Option<Reply>
    requires { unit ≤ 15 }
    ensures writable { IfSome result IsWritableReply }
    ensures found { (reply : Reply) → IsWritableReply reply →
        encode_lower (spelling (reply_message unit reply)) ≡ digits.now → result ≡ Some reply }
{
    reply_is_read_first();
    written_reply_is_read();
    let mut room = [0; LONGEST];
    match message_in(digits, &mut room) {
        Some(message) => Reply::read(&message).ok(),
        None => None,
    }
}

fn heard_in(unit: u8, text: &[u8], digits: &[u8]) -> Option<Heard>
    requires { unit ≤ 15 }
    ensures writable { IfSome result (λ heard. IsWritableNote (note.Heard heard)) }
    ensures found { (heard : Heard) → IsWritableNote (note.Heard heard) →
        note_fields unit (note.Heard heard) ≡ codes "heard" ∷ text.now ∷ digits.now ∷ [] → result ≡ Some heard }
{
    if digits.is_empty() {
        return Some(Heard::Other);
    }
    reply_in(unit, digits).map(Heard::Reply)
}

fn outcome_in(text: &[u8], detail: &[u8]) -> Option<Outcome>
    ensures writable { IfSome result IsWritableOutcome }
    ensures found { (outcome : Outcome) → IsWritableOutcome outcome
        → outcome_fields outcome ≡ text.now ∷ detail.now ∷ [] →
        result ≡ Some outcome }
{
    match text {
        b"done" => Some(Outcome::Done),
        b"stopped" => Some(Outcome::Stopped),
        b"lost" => Some(Outcome::Lost),
        b"denied" => Some(Outcome::Denied),
        b"missing" => number_in(detail).map(Outcome::Missing),
        b"refused" => number_in(detail).map(Outcome::Refused),
        b"foreign" => number_in(detail).map(Outcome::Foreign),
        b"strange" => number_in(detail).map(Outcome::Strange),
        _ => None,
    }
}

fn skip_in(text: &[u8], detail: &[u8]) -> Option<ListCall>
    ensures writable { IfSome result (λ call. IsWritableNote (note.List call)) }
    ensures found { (call : ListCall) → IsWritableNote (note.List call) →
        call_fields call ≡ codes "skip" ∷ text.now ∷ detail.now ∷ [] → result ≡ Some call }
{
    match (number_in(text), number_in(detail)) {
        (Some(first), Some(end)) => Some(ListCall::Skip { first, end }),
        _ => None,
    }
}

/// If no note has these fields it may give any note: the caller compares.
pub(crate) fn note_in(unit: u8, word: &[u8], text: &[u8], detail: &[u8]) -> Option<Note>
    requires { unit ≤ 15 }
    ensures writable { IfSome result IsWritableNote }
    ensures found { (note : Note) → IsWritableNote note
        → note_fields unit note ≡ word.now ∷ text.now ∷ detail.now ∷ [] →
        result ≡ Some note }
{
    match word {
        b"sent" => command_in(unit, detail).map(Note::Sent),
        b"heard" => heard_in(unit, text, detail).map(Note::Heard),
        b"silence" => Some(Note::Silence),
        b"take" => Some(Note::Take),
        b"stop" => Some(Note::Stop),
        b"hold" => Some(Note::List(ListCall::Hold)),
        b"go" => Some(Note::List(ListCall::Go)),
        b"skip" => skip_in(text, detail).map(Note::List),
        b"end" => outcome_in(text, detail).map(Note::End),
        b"from" => number_in(text).map(Note::From),
        b"left" => number_in(text).map(Note::Left),
        _ => None,
    }
}

//! The subcommand `make`: words become the bytes of a command.
ghost use Rattle.std.specs.Prelude.{◌≡◌, ◌⊎◌, ◌<◌, ◌≤◌, [], ◌∷◌, ℕ, List, IfErr, IfNone, IfSome, OnOk};
ghost use Rattle.std.specs.Io.KnownBytes.{Appends, Keeps};
ghost use Rattle.hex.specs.Hex.{encode_lower};
ghost use Rattle.vdcp_text.specs.Failure.{failure_line};
ghost use Rattle.vdcp_text.specs.Make.{IsByteText, IsIdText, IsMade, IsMakeFault, IsTimeText, NamesNone, Names, words_of};
ghost use Rattle.vdcp_text.specs.Text.{line};
ghost use Rattle.vdcp_text.specs.declared.failure.Failure.{Failure};
ghost use Rattle.vdcp_value.specs.declared.clip_id.ClipId.{ClipId};
ghost use Rattle.vdcp_words.specs.declared.command.Command.{Command};

use crate::failure::Failure;
use crate::text::HexText;
use hex::FromHex;
use std::io;
use vdcp_value::ClipId;
use vdcp_words::Command;

/// Writes the bytes of the command that the words name, addressed to `unit`, as one line of hexadecimal digits.
///
/// The status is 0 if that is done, 1 if no command has these words (`err` says why), and 3 if a writer failed.
pub fn do_make<W: io::Write, E: io::Write>(
    word: &str,
    arguments: &[&str],
    unit: u8,
    out: &mut W,
    err: &mut E,
) -> u8
    requires { unit ≤ 15 }
    ensures made { result ≡ 0 → IsMade (words_of word.now arguments.now) unit
        (W.contents out.old) (W.contents out.new) }
    ensures unnamed { result ≡ 1 → NamesNone (words_of word.now arguments.now) }
    ensures told { result ≡ 1 → (failure : Failure) × IsMakeFault word.now failure
        × Appends (E.contents err.old) (E.contents err.new) (failure_line failure) }
    ensures silent { NamesNone (words_of word.now arguments.now) → Keeps (W.contents out.old) (W.contents out.new) }
    ensures untold { (command : Command) → Names (words_of word.now arguments.now) command →
        Keeps (E.contents err.old) (E.contents err.new) }
    ensures statuses { (result < 2) ⊎ (result ≡ 3) }
{
    match make(word, arguments, unit, out) {
        Ok(()) => 0,
        Err(failure) => failure.report(err),
    }
}

fn make<W: io::Write>(
    word: &str,
    arguments: &[&str],
    unit: u8,
    out: &mut W,
) -> Result<(), Failure<'static>>
    requires { unit ≤ 15 }
    ensures made { OnOk result (IsMade (words_of word.now arguments.now) unit
        (W.contents out.old) (W.contents out.new)) }
    ensures refused { IfErr result
        (λ e. ((e ≡ Failure.Writer) × (command : Command) × Names (words_of word.now arguments.now) command)
        ⊎ (NamesNone (words_of word.now arguments.now) × IsMakeFault word.now e
        × Keeps (W.contents out.old) (W.contents out.new))) }
{
    let Some(command) = command_of(word, arguments) else {
        return Err(fault_of(word));
    };
    write_digits(out, command.encode(unit).as_slice()).map_err(|_| Failure::Writer)
}

fn fault_of(word: &str) -> Failure<'static>
    ensures { IsMakeFault word.now result }
{
    match word {
        "open"
        | "close"
        | "select"
        | "cue"
        | "cue-data"
        | "play"
        | "stop"
        | "status"
        | "active"
        | "exists"
        | "size" => Failure::Arguments,
        _ => Failure::Word,
    }
}

fn write_digits<W: io::Write>(out: &mut W, bytes: &[u8]) -> io::Result<()>
    ensures { OnOk result (Appends (W.contents out.old) (W.contents out.new) (line (encode_lower bytes.now))) }
{
    let digits = HexText(bytes);
    writeln!(out, "{digits}")?;
    out.flush()
}

fn command_of(word: &str, arguments: &[&str]) -> Option<Command>
    ensures some { IfSome result (Names (words_of word.now arguments.now)) }
    ensures none { IfNone result (NamesNone (words_of word.now arguments.now)) }
{
    match arguments {
        [] => with_none(word),
        [argument] => with_one(word, argument),
        [port, lock] => with_two(word, port, lock),
        [id, start, duration] => with_three(word, id, start, duration),
        _ => None,
    }
}

pub(crate) fn with_none(word: &str) -> Option<Command>
    ensures some { IfSome result (Names (word.now ∷ [])) }
    ensures none { IfNone result (NamesNone (word.now ∷ [])) }
{
    match word {
        "play" => Some(Command::Play),
        "stop" => Some(Command::Stop),
        "active" => Some(Command::ActiveId),
        _ => None,
    }
}

pub(crate) fn with_one(word: &str, argument: &str) -> Option<Command>
    ensures some { IfSome result (Names (word.now ∷ argument.now ∷ [])) }
    ensures none { IfNone result (NamesNone (word.now ∷ argument.now ∷ [])) }
{
    match word {
        "close" => Some(Command::Close(byte_of(argument)?)),
        "select" => Some(Command::Select(byte_of(argument)?)),
        "status" => Some(Command::Status(byte_of(argument)?)),
        "cue" => Some(Command::PlayCue(id_of(argument)?)),
        "exists" => Some(Command::IdRequest(id_of(argument)?)),
        "size" => Some(Command::IdSize(id_of(argument)?)),
        _ => None,
    }
}

pub(crate) fn with_two(word: &str, port: &str, lock: &str) -> Option<Command>
    ensures some { IfSome result (Names (word.now ∷ port.now ∷ lock.now ∷ [])) }
    ensures none { IfNone result (NamesNone (word.now ∷ port.now ∷ lock.now ∷ [])) }
{
    match word {
        "open" => Some(Command::Open(byte_of(port)?, byte_of(lock)?)),
        _ => None,
    }
}

pub(crate) fn with_three(word: &str, id: &str, start: &str, duration: &str) -> Option<Command>
    ensures some { IfSome result (Names (word.now ∷ id.now ∷ start.now ∷ duration.now ∷ [])) }
    ensures none { IfNone result (NamesNone (word.now ∷ id.now ∷ start.now ∷ duration.now ∷ [])) }
{
    match word {
        "cue-data" => Some(Command::CueData(id_of(id)?, time_of(start)?, time_of(duration)?)),
        _ => None,
    }
}

fn byte_of(text: &str) -> Option<u8>
    ensures some { IfSome result (IsByteText text.now) }
    ensures none { IfNone result ((byte : ℕ) → ¬ IsByteText text.now byte) }
{
    match <[u8; 1]>::from_hex(text) {
        Ok(bytes) => Some(bytes[0]),
        Err(_) => None,
    }
}

fn time_of(text: &str) -> Option<[u8; 4]>
    ensures some { IfSome result (IsTimeText text.now) }
    ensures none { IfNone result ((time : List ℕ) → ¬ IsTimeText text.now time) }
{
    match <[u8; 4]>::from_hex(text) {
        Ok(bytes) => Some(bytes),
        Err(_) => None,
    }
}

fn id_of(text: &str) -> Option<ClipId>
    ensures some { IfSome result (IsIdText text.now) }
    ensures none { IfNone result ((id : ClipId) → ¬ IsIdText text.now id) }
{
    match ClipId::parse(text) {
        Ok(id) => Some(id),
        Err(_) => None,
    }
}

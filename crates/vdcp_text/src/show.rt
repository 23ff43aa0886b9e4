//! The subcommand `show`: it prints what a burst says, message by message.
ghost use Rattle.std.specs.Prelude.{◌≡◌, ◌⊎◌, IfOk, IfErr, OnErr, OnOk, IsErr, IsOk, IsOkAnd};
ghost use Rattle.std.specs.Io.KnownBytes.{Appends, Keeps};
ghost use Rattle.hex.specs.Hex.{decode_of};
ghost use Rattle.vdcp_frame.specs.Burst.{end_of, messages_of};
ghost use Rattle.vdcp_frame.specs.Message.{content_of};
ghost use Rattle.vdcp_frame.specs.Walk.{end_seen};
ghost use Rattle.vdcp_text.specs.Failure.{failure_line};
ghost use Rattle.vdcp_text.specs.Text.{end_text, line, messages_text, shown_text};
ghost use Rattle.vdcp_text.specs.Show.{GainsReading, IsShown};
ghost use Rattle.vdcp_text.specs.Subcommand.{IsSubcommand};

use crate::failure::Failure;
use crate::text::{EndText, MeaningText, MessageText};
use hex::FromHexError;
use std::alloc::Allocator;
use std::io;
use vdcp_frame::laws::one_reading;
use vdcp_frame::{End, Message, Messages};

/// Prints a line for each message of the burst that `hex` spells, with `meanings` also what it carries, and one for the
/// burst's end. Then `out` is flushed.
///
/// The status is 0 for a clean end, 1 for another or if `hex` isn't an even number of digits, and 3 if memory was refused
/// or a writer failed. `err` gets a line of bad digits and of refused memory. A writer that failed gets nothing more.
pub fn do_show<A: Allocator, W: io::Write, E: io::Write>(
    alloc: A,
    hex: &str,
    meanings: bool,
    out: &mut W,
    err: &mut E,
) -> u8
    ensures { IsSubcommand (IsShown meanings hex.now)
        (λ old new err err'. IsErr (decode_of hex.now) × Keeps old new × Appends err err' (failure_line Failure.Hex))
        (IsOk (decode_of hex.now))
        (W.contents out.old) (W.contents out.new) (E.contents err.old) (E.contents err.new) result }
{
    match show(alloc, hex, meanings, out) {
        Ok(End::Clean) => 0,
        Ok(End::Cut(_) | End::Fault(..)) => 1,
        Err(failure) => failure.report(err),
    }
}

fn show<A: Allocator, W: io::Write>(
    alloc: A,
    hex: &str,
    meanings: bool,
    out: &mut W,
) -> Result<End, Failure<'static>>
    ensures shown { IfOk result (λ end. IsOkAnd (decode_of hex.now) (λ burst.
        GainsReading meanings burst (W.contents out.old) (W.contents out.new) (end_seen end))) }
    ensures hex { result ≡ Err Failure.Hex → IsErr (decode_of hex.now) }
    ensures others { IfErr result (λ e. (e ≡ Failure.Hex) ⊎ (e ≡ Failure.Memory) ⊎ (e ≡ Failure.Writer)) }
    ensures silent { OnErr (decode_of hex.now) (Keeps (W.contents out.old) (W.contents out.new)) }
{
    let burst = match hex::decode(alloc, hex) {
        Ok(burst) => burst,
        Err(FromHexError::OutOfMemory) => return Err(Failure::Memory),
        Err(_) => return Err(Failure::Hex),
    };
    write_reading(out, meanings, burst.as_slice()).map_err(|_| Failure::Writer)
}

fn write_reading<W: io::Write>(out: &mut W, meanings: bool, burst: &[u8]) -> io::Result<End>
    ensures { IfOk result (λ end. GainsReading meanings burst.now (W.contents out.old) (W.contents out.new)
        (end_seen end)) }
{
    one_reading();
    let end = write_messages(out, meanings, burst)?;
    write_end(out, end)?;
    Ok(end)
}

fn write_messages<W: io::Write>(out: &mut W, meanings: bool, burst: &[u8]) -> io::Result<End>
    ensures end { IfOk result (λ end. end_seen end ≡ end_of burst.now) }
    ensures text { OnOk result (Appends (W.contents out.old) (W.contents out.new)
        (messages_text meanings (messages_of burst.now))) }
{
    let mut messages = Messages::of(burst);
    'messages: while let Some(message) = messages.next() {
        write_message(out, meanings, message)?;
    }
    Ok(messages.end())
}

fn write_message<W: io::Write>(out: &mut W, meanings: bool, message: Message<'_>) -> io::Result<()>
    ensures { OnOk result (Appends (W.contents out.old) (W.contents out.new)
        (line (shown_text meanings (content_of message.entry)))) }
{
    let text = MessageText(message);
    if meanings {
        let meaning = MeaningText(message);
        writeln!(out, "{text}{meaning}")
    } else {
        writeln!(out, "{text}")
    }
}

fn write_end<W: io::Write>(out: &mut W, end: End) -> io::Result<()>
    ensures { OnOk result (Appends (W.contents out.old) (W.contents out.new) (line (end_text (end_seen end)))) }
{
    let end = EndText(end);
    writeln!(out, "{end}")?;
    out.flush()
}

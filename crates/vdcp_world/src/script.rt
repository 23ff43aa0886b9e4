//! How a script is read, line by line.
ghost use Rattle.hex.specs.Hex.{encode_lower};
ghost use Rattle.std.specs.Prelude.{◌≡◌, ◌≤◌, ◌++◌, ◌∷◌, [], codes, length, IfOk, IfSome, Some, None, IsSomeAnd, IsTrue, option_map, OnOk};
ghost use Rattle.vdcp_world.specs.Rounds.{round, times};
ghost use Rattle.vdcp_world.specs.Script.{IsScript, IsLineOf, SaysMore, Counts, WritesBytes, is_skipped, repeated_events, repeated_word, worded};

use crate::burst::Burst;
use crate::damage::MOST_BYTES;
use crate::event::Event;
use hex::{FromHex, FromHexError};
use std::alloc::Global;
use thiserror::Error;

const MOST_EVENTS: usize = 100_000;
// The greatest number of a line.
const GREATEST: u32 = 10_000;

/// Why a script is refused. Lines count from 1, blank ones and comments included; the first refused one counts.
#[derive(Clone, Copy, Debug, PartialEq, Eq, Error)]
pub enum ScriptFault {
    #[error("line {0} is no event")]
    Word(usize),
    /// It isn't 1 to 10,000, in digits without leading zeros.
    #[error("line {0} has no number that it can have")]
    Number(usize),
    /// The bytes aren't 1 to 1,024, in hexadecimal digits of either case, or the one byte not in two lower-case digits.
    #[error("line {0} has no bytes that it can have")]
    Hex(usize),
    /// There are more than 100,000 events with this line.
    #[error("there are too many events")]
    TooMany,
    #[error("out of memory")]
    Memory,
}

#[derive(Clone, Copy)]
enum Repeated {
    Frame,
    Round,
    GoodRound,
}

#[derive(Clone, Copy)]
struct ScriptLine<'a> {
    number: usize,
    word: &'a str,
    argument: Option<&'a str>,
}

impl<'a> ScriptLine<'a> {
    fn of_text(number: usize, text: &'a str) -> Result<ScriptLine<'a>, ScriptFault>
        ensures { IfOk result (λ line. worded line.word.now (option_map (λ t. t.now) line.argument) ≡ text.now) }
    {
        let (word, argument) = match text.split_once(' ') {
            None => (text, None),
            Some((word, argument)) => (word, Some(argument)),
        };
        if argument.is_some_and(|words| words.bytes().any(|byte| byte == b' ')) {
            return Err(ScriptFault::Word(number));
        }
        Ok(ScriptLine {
            number,
            word,
            argument,
        })
    }

    fn count(&self) -> Result<u32, ScriptFault>
        ensures range { IfOk result (λ count. (1 ≤ count) × (count ≤ 10000)) }
        ensures counts { IfOk result (Counts (option_map (λ text. text.now) self.now.argument)) }
    {
        let Some(digits) = self.argument else {
            return Ok(1);
        };
        if digits.starts_with('0') || digits.starts_with('+') {
            return Err(ScriptFault::Number(self.number));
        }
        match digits.parse::<u32>() {
            Ok(count) if 1 <= count && count <= GREATEST => Ok(count),
            Ok(_) | Err(_) => Err(ScriptFault::Number(self.number)),
        }
    }

    fn burst(&self, alloc: Global) -> Result<Burst, ScriptFault>
        ensures { IfOk result (λ bytes. IsSomeAnd self.now.argument (λ text. WritesBytes text.now bytes)) }
    {
        let digits = self.needed()?;
        if digits.is_empty() || digits.len() > 2 * MOST_BYTES {
            return Err(ScriptFault::Hex(self.number));
        }
        match hex::decode(alloc, digits) {
            Ok(bytes) => Ok(Burst::new(bytes)),
            Err(FromHexError::OutOfMemory) => Err(ScriptFault::Memory),
            Err(_) => Err(ScriptFault::Hex(self.number)),
        }
    }

    fn byte(&self) -> Result<u8, ScriptFault>
        ensures { IfOk result (λ byte. IsSomeAnd self.now.argument (λ text. text.now ≡ encode_lower (byte ∷ []))) }
    {
        let digits = self.needed()?;
        match <[u8; 1]>::from_hex(digits) {
            Ok(bytes) if is_lower(bytes[0], digits) => Ok(bytes[0]),
            Ok(_) | Err(_) => Err(ScriptFault::Hex(self.number)),
        }
    }

    fn needed(&self) -> Result<&'a str, ScriptFault>
        ensures { IfOk result (λ text. self.now.argument ≡ Some text) }
    {
        self.argument.ok_or(ScriptFault::Word(self.number))
    }
}

fn is_lower(byte: u8, text: &str) -> bool
    ensures { IsTrue result → text.now ≡ encode_lower (byte ∷ []) }
{
    let mut lower = [0; 2];
    hex::encode_to_slice([byte], &mut lower).is_ok() && text.as_bytes() == lower.as_slice()
}

/// Reads a script in the form that `docs/FORMATS.md` gives (*Scripts*).
pub fn read_script(alloc: Global, text: &str) -> Result<Vec<Event>, ScriptFault>
    ensures few { IfOk result (λ events. length events.items ≤ 100000) }
    ensures script { IfOk result (λ events. IsScript text.now events.items) }
{
    let mut events = Vec::new(alloc);
    'lines: for (before, line) in text.lines().enumerate() {
        read_line(alloc, before + 1, line, &mut events)?;
    }
    Ok(events)
}

#[tactic(auto, using(crate::proofs::ScriptLemmas::says_skipped, crate::proofs::ScriptLemmas::says_word, crate::proofs::ScriptLemmas::says_again))]
fn read_line(
    alloc: Global,
    number: usize,
    text: &str,
    events: &mut Vec<Event>,
) -> Result<(), ScriptFault>
    requires { length events.old.items ≤ 100000 }
    ensures few { length events.new.items ≤ 100000 }
    ensures says { OnOk result (SaysMore text.now events.old.items events.new.items) }
{
    if is_skipped(text) {
        return Ok(());
    }
    let line = ScriptLine::of_text(number, text)?;
    match repeated_by(line.word) {
        Some(repeated) => push_again(repeated, line.count()?, events),
        None => push(event_of(alloc, &line)?, events),
    }
}

fn is_skipped(text: &str) -> bool
    ensures { result ≡ is_skipped text.now }
{
    match text.as_bytes() {
        [] => true,
        [first, ..] => *first == b'#',
    }
}

fn repeated_by(word: &str) -> Option<Repeated>
    ensures { IfSome result (λ repeated. word.now ≡ repeated_word repeated) }
{
    match word {
        "frame" => Some(Repeated::Frame),
        "round" => Some(Repeated::Round),
        "good" => Some(Repeated::GoodRound),
        _ => None,
    }
}

fn event_of(alloc: Global, line: &ScriptLine<'_>) -> Result<Event, ScriptFault>
    ensures { IfOk result (λ event. IsLineOf event
        (worded line.now.word.now (option_map (λ t. t.now) line.now.argument))) }
{
    match line.word {
        "alter-down" => Ok(Event::AlterDown(line.burst(alloc)?)),
        "alter-up" => Ok(Event::AlterUp(line.burst(alloc)?)),
        "stray-nak" => Ok(Event::StrayNak(line.byte()?)),
        _ => event_alone(line).ok_or(ScriptFault::Word(line.number)),
    }
}

fn event_alone(line: &ScriptLine<'_>) -> Option<Event>
    ensures { IfSome result (λ event. IsLineOf event
        (worded line.now.word.now (option_map (λ t. t.now) line.now.argument))) }
{
    if line.argument.is_some() {
        return None;
    }
    match line.word {
        "tick" => Some(Event::Tick),
        "down" => Some(Event::Down),
        "up" => Some(Event::Up),
        "down-copy" => Some(Event::DownCopy),
        "up-copy" => Some(Event::UpCopy),
        "lose-down" => Some(Event::LoseDown),
        "lose-up" => Some(Event::LoseUp),
        "timeout" => Some(Event::Timeout),
        "ready" => Some(Event::Ready),
        "end" => Some(Event::End),
        "take" => Some(Event::Take),
        "stop" => Some(Event::Stop),
        "stray-ack" => Some(Event::StrayAck),
        _ => None,
    }
}

#[tactic(auto, using(crate::proofs::ScriptLemmas::once_more))]
fn push_again(repeated: Repeated, count: u32, events: &mut Vec<Event>) -> Result<(), ScriptFault>
    requires { length events.old.items ≤ 100000 }
    ensures few { length events.new.items ≤ 100000 }
    ensures pushed { OnOk result (events.new.items ≡ events.old.items ++ times count (repeated_events repeated)) }
{
    'times: for _ in 0..count {
        push_once(repeated, events)?;
    }
    Ok(())
}

fn push_once(repeated: Repeated, events: &mut Vec<Event>) -> Result<(), ScriptFault>
    requires { length events.old.items ≤ 100000 }
    ensures few { length events.new.items ≤ 100000 }
    ensures pushed { OnOk result (events.new.items ≡ events.old.items ++ repeated_events repeated) }
{
    match repeated {
        Repeated::Frame => push(Event::Frame, events),
        Repeated::Round => push_round(events),
        Repeated::GoodRound => {
            push(Event::Timeout, events)?;
            push(Event::Ready, events)?;
            push(Event::End, events)?;
            push_round(events)
        }
    }
}

#[inline(always)]
fn push_round(events: &mut Vec<Event>) -> Result<(), ScriptFault>
    requires { length events.old.items ≤ 100000 }
    ensures few { length events.new.items ≤ 100000 }
    ensures pushed { OnOk result (events.new.items ≡ events.old.items ++ round) }
{
    push(Event::Tick, events)?;
    push(Event::Down, events)?;
    push(Event::Up, events)
}

#[inline(always)]
fn push(event: Event, events: &mut Vec<Event>) -> Result<(), ScriptFault>
    requires { length events.old.items ≤ 100000 }
    ensures few { length events.new.items ≤ 100000 }
    ensures pushed { OnOk result (events.new.items ≡ events.old.items ++ event ∷ []) }
{
    if events.len() >= MOST_EVENTS {
        return Err(ScriptFault::TooMany);
    }
    events.push(event).map_err(|_| ScriptFault::Memory)
}

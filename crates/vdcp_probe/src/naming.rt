//! The bytes that the steps of a row send.
ghost use Rattle.std.specs.Prelude.{◌≡◌, ◌≤◌, ◌%◌, ◌++◌, OnOk, length, min, take};
ghost use Rattle.vdcp_frame.specs.Message.{framed, spelling};
ghost use Rattle.vdcp_probe.specs.Asks.{ask_bytes, clip_of, command_for, cut, damaged, number_of, other_number, other_unit, step_bytes};

use crate::row::{Ask, Clip, Number, Step};
use arrayvec::ArrayVec;
use std::alloc::AllocError;
use vdcp_frame::{Message, write};
use vdcp_value::ClipId;
use vdcp_words::Command;

/// What the commands of a row name.
#[derive(Clone, Copy, Debug, PartialEq, Eq)]
pub struct Naming {
    /// The unit address, 0 to 15.
    pub unit: u8,
    pub port: u8,
    pub first: ClipId,
    pub second: ClipId,
    pub unknown: ClipId,
}

impl Naming {
    pub fn command(&self, ask: &Ask) -> Command
        ensures { result ≡ command_for self.now ask.now }
    {
        match *ask {
            Ask::Open(number) => Command::Open(self.number(number), 0x01),
            Ask::Close(number) => Command::Close(self.number(number)),
            Ask::Select(number) => Command::Select(self.number(number)),
            Ask::Cue(clip) => Command::PlayCue(self.clip(clip)),
            Ask::CuePart(clip, start, duration) => {
                Command::CueData(self.clip(clip), start, duration)
            }
            Ask::Play => Command::Play,
            Ask::Stop => Command::Stop,
            Ask::Status(bitmap) => Command::Status(bitmap),
            Ask::Active => Command::ActiveId,
            Ask::Exists(clip) => Command::IdRequest(self.clip(clip)),
            Ask::Size(clip) => Command::IdSize(self.clip(clip)),
        }
    }

    fn number(&self, number: Number) -> u8
        ensures { result ≡ number_of self.now number }
    {
        match number {
            Number::Own => self.port,
            Number::Other => other_number(self.port),
        }
    }

    fn clip(&self, clip: Clip) -> ClipId
        ensures { result ≡ clip_of self.now clip }
    {
        match clip {
            Clip::First => self.first,
            Clip::Second => self.second,
            Clip::Unknown => self.unknown,
        }
    }

    pub fn add_step(&self, step: &Step, burst: &mut Vec<u8>) -> Result<(), AllocError>
        requires { self.now.unit ≤ 15 }
        ensures { OnOk result (burst.new.items ≡ burst.old.items ++ step_bytes self.now step.now) }
    {
        match step {
            Step::Ask(ask) => burst.extend_from_slice(&self.command(ask).encode(self.unit)),
            Step::Elsewhere(ask) => {
                burst.extend_from_slice(&self.command(ask).encode(other_unit(self.unit)))
            }
            Step::Cut(ask) => burst.extend_from_slice(cut(&self.command(ask).encode(self.unit))),
            Step::Damaged(ask) => add_damaged(&self.command(ask).encode(self.unit), burst),
            Step::Framed(kind, code, rest) => {
                burst.extend_from_slice(&framed(self.unit, *kind, *code, rest))
            }
            Step::Bytes(bytes) => burst.extend_from_slice(bytes),
            Step::Send | Step::Await(_) => Ok(()),
        }
    }

    pub fn add_ask(&self, ask: &Ask, burst: &mut Vec<u8>) -> Result<(), AllocError>
        requires { self.now.unit ≤ 15 }
        ensures { OnOk result (burst.new.items ≡ burst.old.items ++ ask_bytes self.now.unit self.now ask.now) }
    {
        burst.extend_from_slice(&self.command(ask).encode(self.unit))
    }
}

fn other_number(port: u8) -> u8
    ensures { result ≡ other_number port }
{
    if port == 255 { 0 } else { port + 1 }
}

fn other_unit(unit: u8) -> u8
    requires { unit ≤ 15 }
    ensures unit { result ≡ other_unit unit }
    ensures fits { result ≤ 15 }
{
    if unit == 15 { 0 } else { unit + 1 }
}

fn cut(bytes: &[u8]) -> &[u8]
    ensures { result.now ≡ cut bytes.now }
{
    &bytes[..bytes.len().saturating_sub(1)]
}

fn add_damaged(bytes: &[u8], burst: &mut Vec<u8>) -> Result<(), AllocError>
    ensures { OnOk result (burst.new.items ≡ burst.old.items ++ damaged bytes.now) }
{
    let last = bytes.last().copied().unwrap_or(0);
    burst.extend_from_slice(cut(bytes))?;
    burst.extend_from_slice(&[last.wrapping_add(1)])
}

fn framed(unit: u8, kind: u8, code: u8, rest: &[u8]) -> ArrayVec<u8, 258>
    requires { unit ≤ 15 }
    ensures { result.items ≡ spelling (framed (kind % 16) unit code (take (min (length rest.now) 253) rest.now)) }
{
    let rest = &rest[..rest.len().min(253)];
    let kind = kind % 16;
    let mut bytes = ArrayVec::new();
    let message = Message::Framed {
        kind,
        unit,
        code,
        rest,
    };
    write(&message, &mut bytes).unwrap();
    bytes
}

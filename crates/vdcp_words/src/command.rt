//! How commands are read, written and shown.
ghost use Rattle.std.specs.Prelude.{◌≡◌, ◌<◌, ◌≤◌, ℕ, All, length};
ghost use Rattle.vdcp_frame.specs.Message.{content_of, framed, spelling, IsWritable};
ghost use Rattle.vdcp_words.specs.Commands.{command_message, IsWritableCommand, ReadsCommand};
ghost use Rattle.vdcp_words.specs.Computed.{command_of};
ghost use Rattle.vdcp_words.specs.Messages.{rest_of};
ghost use Rattle.vdcp_words.specs.Texts.{command_text};

use crate::encoding::{LONGEST, encoded};
use crate::fault::WordFault;
use crate::room::{joined, message, put};
use crate::text::{push_byte, push_id, push_time};
use crate::{data, laws};
use arrayvec::{ArrayString, ArrayVec};
use vdcp_frame::Message;
use vdcp_value::ClipId;

/// What the controller asks of the server's port: those of VDCP's commands that this profile has.
#[derive(Clone, Copy, Debug, PartialEq, Eq)]
pub enum Command {
    /// OPEN PORT: the port's number and the lock byte.
    Open(u8, u8),
    /// The port's number.
    Close(u8),
    /// The port's number.
    Select(u8),
    PlayCue(ClipId),
    /// The clip, and start and duration of its part in packed BCD: frames, seconds, minutes, hours.
    CueData(ClipId, [u8; 4], [u8; 4]),
    /// Airs the item whose cue is done.
    Play,
    /// Empties both slots of the port.
    Stop,
    /// The bitmap of the status groups that are asked for.
    Status(u8),
    /// Asks which clip plays.
    ActiveId,
    /// Asks whether the server has the clip.
    IdRequest(ClipId),
    /// Asks how long the clip is.
    IdSize(ClipId),
}

impl Command {
    /// Reads a command to whatever unit, with exactly its own data (VDCP; the choice of commands is this profile's).
    pub fn read(message: &Message) -> Result<Command, WordFault>
        ensures table { ReadsCommand (content_of message.now) result }
        ensures exact { result ≡ command_of (content_of message.now) }
    {
        laws::one_command();
        match *message {
            Message::Ack | Message::Nak(_) => Err(WordFault::NotCommand),
            Message::Framed {
                kind,
                code,
                rest,
                ..
            } => match kind {
                1 => immediate(code, rest),
                2 => preset(code, rest),
                3 => sense_request(code, rest),
                _ => Err(WordFault::Unknown),
            },
        }
    }

    /// Makes the message that carries the command to the unit; its data lies in `room`.
    pub fn to_message<'a>(&self, unit: u8, room: &'a mut [u8; 16]) -> Message<'a>
        requires { unit ≤ 15 }
        ensures message { content_of result ≡ command_message unit self.now }
        ensures writable { IsWritable (content_of result) }
        ensures short { length (rest_of (content_of result)) ≤ 16 }
        ensures of_bytes { IsWritableCommand self.now }
    {
        // Read once, so that the prover knows each of its numbers to be a byte.
        let _command = *self;
        match self {
            Command::Stop => message(1, unit, 0x00, &[]),
            Command::Play => message(1, unit, 0x01, &[]),
            Command::Close(port) => message(2, unit, 0x21, put(room, &[*port])),
            Command::Select(port) => message(2, unit, 0x22, put(room, &[*port])),
            Command::PlayCue(id) => message(2, unit, 0x24, put(room, &id.bytes())),
            Command::CueData(id, start, duration) => {
                message(2, unit, 0x25, put(room, &joined(id, start, duration)))
            }
            Command::Open(port, lock) => message(3, unit, 0x01, put(room, &[*port, *lock])),
            Command::Status(bitmap) => message(3, unit, 0x05, put(room, &[*bitmap])),
            Command::ActiveId => message(3, unit, 0x07, &[]),
            Command::IdSize(id) => message(3, unit, 0x14, put(room, &id.bytes())),
            Command::IdRequest(id) => message(3, unit, 0x16, put(room, &id.bytes())),
        }
    }

    pub fn encode(&self, unit: u8) -> ArrayVec<u8, LONGEST>
        requires { unit ≤ 15 }
        ensures bytes { result.items ≡ spelling (command_message unit self.now) }
        ensures of_bytes { IsWritableCommand self.now }
    {
        let mut room = [0; 16];
        encoded(&self.to_message(unit, &mut room))
    }

    /// Replaces the buffer's text by the command's (this profile), as `open 01 01`; bytes are lower-case hexadecimal.
    pub fn show(&self, text: &mut ArrayString<64>)
        ensures { text.new.bytes ≡ command_text self.now }
    {
        text.clear();
        match self {
            Command::Open(port, lock) => {
                text.push_str("open ");
                push_byte(text, *port);
                text.push_str(" ");
                push_byte(text, *lock);
            }
            Command::Close(port) => {
                text.push_str("close ");
                push_byte(text, *port);
            }
            Command::Select(port) => {
                text.push_str("select ");
                push_byte(text, *port);
            }
            Command::PlayCue(id) => {
                text.push_str("cue ");
                push_id(text, id);
            }
            Command::CueData(id, start, duration) => {
                text.push_str("cue-data ");
                push_id(text, id);
                text.push_str(" ");
                push_time(text, start);
                text.push_str(" ");
                push_time(text, duration);
            }
            Command::Play => text.push_str("play"),
            Command::Stop => text.push_str("stop"),
            Command::Status(bitmap) => {
                text.push_str("status ");
                push_byte(text, *bitmap);
            }
            Command::ActiveId => text.push_str("active"),
            Command::IdRequest(id) => {
                text.push_str("exists ");
                push_id(text, id);
            }
            Command::IdSize(id) => {
                text.push_str("size ");
                push_id(text, id);
            }
        }
    }
}

#[tactic(auto, using(crate::proofs::CommandLemmas::other_lengths))]
fn immediate(code: u8, rest: &[u8]) -> Result<Command, WordFault>
    ensures table { (unit : ℕ) → ReadsCommand (framed 1 unit code rest.now) result }
    ensures bytes { All (λ b. b < 256) rest.now }
{
    match code {
        0x00 => data::nothing(rest, Command::Stop),
        0x01 => data::nothing(rest, Command::Play),
        _ => Err(WordFault::Unknown),
    }
}

#[tactic(auto, using(crate::proofs::CommandLemmas::other_lengths))]
fn preset(code: u8, rest: &[u8]) -> Result<Command, WordFault>
    ensures table { (unit : ℕ) → ReadsCommand (framed 2 unit code rest.now) result }
    ensures bytes { All (λ b. b < 256) rest.now }
{
    match code {
        0x21 => Ok(Command::Close(data::byte(rest)?)),
        0x22 => Ok(Command::Select(data::byte(rest)?)),
        0x24 => Ok(Command::PlayCue(data::id(rest)?)),
        0x25 => cue_data(rest),
        _ => Err(WordFault::Unknown),
    }
}

#[tactic(auto, using(crate::proofs::CommandLemmas::other_lengths))]
fn sense_request(code: u8, rest: &[u8]) -> Result<Command, WordFault>
    ensures table { (unit : ℕ) → ReadsCommand (framed 3 unit code rest.now) result }
    ensures bytes { All (λ b. b < 256) rest.now }
{
    match code {
        0x01 => open(rest),
        0x05 => Ok(Command::Status(data::byte(rest)?)),
        0x07 => data::nothing(rest, Command::ActiveId),
        0x14 => Ok(Command::IdSize(data::id(rest)?)),
        0x16 => Ok(Command::IdRequest(data::id(rest)?)),
        _ => Err(WordFault::Unknown),
    }
}

#[tactic(auto, using(crate::proofs::CommandLemmas::other_lengths))]
fn open(rest: &[u8]) -> Result<Command, WordFault>
    ensures { (unit : ℕ) → ReadsCommand (framed 3 unit 0x01 rest.now) result }
{
    match rest {
        [port, lock] => Ok(Command::Open(*port, *lock)),
        _ => Err(WordFault::Length),
    }
}

#[tactic(auto, using(crate::proofs::CommandLemmas::other_lengths))]
fn cue_data(rest: &[u8]) -> Result<Command, WordFault>
    ensures { (unit : ℕ) → ReadsCommand (framed 2 unit 0x25 rest.now) result }
{
    if rest.len() != 16 {
        return Err(WordFault::Length);
    }
    let (id, times) = rest.split_at(8);
    let (start, duration) = times.split_at(4);
    Ok(Command::CueData(data::id(id)?, data::time(start)?, data::time(duration)?))
}

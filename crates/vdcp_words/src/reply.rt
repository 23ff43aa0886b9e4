//! How replies are read, written and shown.
ghost use Rattle.std.specs.Prelude.{◌≡◌, ◌<◌, ◌≤◌, ℕ, All, length};
ghost use Rattle.vdcp_frame.specs.Message.{content_of, framed, spelling, IsWritable};
ghost use Rattle.vdcp_words.specs.Computed.{reply_of};
ghost use Rattle.vdcp_words.specs.Messages.{rest_of};
ghost use Rattle.vdcp_words.specs.Texts.{reply_text};
ghost use Rattle.vdcp_words.specs.Replies.{reply_message, IsWritableReply, MatchesBitmap, ReadsReply};

use crate::encoding::{LONGEST, encoded};
use crate::fault::WordFault;
use crate::room::{four, marked, message, put};
use crate::text::{push_byte, push_id, push_time};
use crate::{data, laws};
use arrayvec::{ArrayString, ArrayVec};
use vdcp_frame::Message;
use vdcp_value::ClipId;

#[derive(Clone, Copy, Debug, PartialEq, Eq)]
pub enum Reply {
    /// The command was executed.
    Ack,
    /// The error byte: the command was refused, or the burst couldn't be read.
    Nak(u8),
    /// To OPEN PORT: whether the port was granted.
    Opened(bool),
    /// To PORT STATUS REQUEST: the bitmap of the status groups, and the state byte that bit 0 announces.
    State(u8, Option<u8>),
    /// To ACTIVE ID REQUEST: the clip that plays.
    Active(Option<ClipId>),
    /// To ID REQUEST: whether the server has the clip.
    Present(bool),
    /// To ID SIZE REQUEST: the clip's length in packed BCD: frames, seconds, minutes, hours.
    Size([u8; 4]),
}

impl Reply {
    /// Reads a reply of any unit, by VDCP and this profile's table, and ignores data behind it.
    /// It never fails by `NotCommand`.
    pub fn read(message: &Message) -> Result<Reply, WordFault>
        ensures table { ReadsReply (content_of message.now) result }
        ensures exact { result ≡ reply_of (content_of message.now) }
    {
        laws::one_reply();
        match *message {
            Message::Ack => Ok(Reply::Ack),
            Message::Nak(byte) => Ok(Reply::Nak(byte)),
            Message::Framed {
                kind,
                code,
                rest,
                ..
            } => match kind {
                3 => sense_reply(code, rest),
                _ => Err(WordFault::Unknown),
            },
        }
    }

    /// Makes the reply's message; its data lies in `room`. A state byte is written exactly if there is one.
    pub fn to_message<'a>(&self, unit: u8, room: &'a mut [u8; 16]) -> Message<'a>
        requires { unit ≤ 15 }
        ensures message { content_of result ≡ reply_message unit self.now }
        ensures writable { IsWritable (content_of result) }
        ensures short { length (rest_of (content_of result)) ≤ 16 }
        ensures of_bytes { MatchesBitmap self.now → IsWritableReply self.now }
    {
        // Read once, so that the prover knows each of its numbers to be a byte.
        let _reply = *self;
        match self {
            Reply::Ack => Message::Ack,
            Reply::Nak(byte) => Message::Nak(*byte),
            Reply::Opened(granted) => message(3, unit, 0x81, put(room, &[u8::from(*granted)])),
            Reply::State(bitmap, None) => message(3, unit, 0x85, put(room, &[*bitmap])),
            Reply::State(bitmap, Some(state)) => {
                message(3, unit, 0x85, put(room, &[*bitmap, *state]))
            }
            Reply::Active(None) => message(3, unit, 0x87, put(room, &[0x00])),
            Reply::Active(Some(id)) => message(3, unit, 0x87, put(room, &marked(id))),
            Reply::Size(time) => message(3, unit, 0x94, put(room, &four(time))),
            Reply::Present(there) => message(3, unit, 0x96, put(room, &[u8::from(*there)])),
        }
    }

    pub fn encode(&self, unit: u8) -> ArrayVec<u8, LONGEST>
        requires { unit ≤ 15 }
        ensures bytes { result.items ≡ spelling (reply_message unit self.now) }
        ensures of_bytes { MatchesBitmap self.now → IsWritableReply self.now }
    {
        let mut room = [0; 16];
        encoded(&self.to_message(unit, &mut room))
    }

    /// Replaces the buffer's text by the reply's (this profile), as `granted`, `state 84` or `size 00100000`. A bitmap
    /// isn't shown; other bytes are two lower-case hexadecimal digits each.
    pub fn show(&self, text: &mut ArrayString<64>)
        ensures { text.new.bytes ≡ reply_text self.now }
    {
        text.clear();
        match self {
            Reply::Ack => text.push_str("ack"),
            Reply::Nak(byte) => {
                text.push_str("nak ");
                push_byte(text, *byte);
            }
            Reply::Opened(true) => text.push_str("granted"),
            Reply::Opened(false) => text.push_str("denied"),
            Reply::State(_, Some(state)) => {
                text.push_str("state ");
                push_byte(text, *state);
            }
            Reply::State(_, None) => text.push_str("state none"),
            Reply::Active(Some(id)) => {
                text.push_str("active ");
                push_id(text, id);
            }
            Reply::Active(None) => text.push_str("active none"),
            Reply::Present(true) => text.push_str("present"),
            Reply::Present(false) => text.push_str("absent"),
            Reply::Size(time) => {
                text.push_str("size ");
                push_time(text, time);
            }
        }
    }
}

fn sense_reply(code: u8, rest: &[u8]) -> Result<Reply, WordFault>
    ensures table { (unit : ℕ) → ReadsReply (framed 3 unit code rest.now) result }
    ensures bytes { All (λ b. b < 256) rest.now }
{
    match code {
        0x81 => opened(rest),
        0x85 => state(rest),
        0x87 => active(rest),
        0x94 => size(rest),
        0x96 => present(rest),
        _ => Err(WordFault::Unknown),
    }
}

#[tactic(auto, using(crate::proofs::ReplyLemmas::shorts))]
fn opened(rest: &[u8]) -> Result<Reply, WordFault>
    ensures { (unit : ℕ) → ReadsReply (framed 3 unit 0x81 rest.now) result }
{
    match rest {
        [first, ..] => Ok(Reply::Opened(*first != 0x00)),
        [] => Err(WordFault::Length),
    }
}

#[tactic(auto, using(crate::proofs::ReplyLemmas::shorts))]
fn state(rest: &[u8]) -> Result<Reply, WordFault>
    ensures { (unit : ℕ) → ReadsReply (framed 3 unit 0x85 rest.now) result }
{
    match rest {
        [bitmap, ..] if *bitmap & 1 != 1 => Ok(Reply::State(*bitmap, None)),
        [bitmap, byte, ..] => Ok(Reply::State(*bitmap, Some(*byte))),
        [] | [_] => Err(WordFault::Length),
    }
}

#[tactic(auto, using(crate::proofs::ReplyLemmas::shorts))]
fn active(rest: &[u8]) -> Result<Reply, WordFault>
    ensures { (unit : ℕ) → ReadsReply (framed 3 unit 0x87 rest.now) result }
{
    match rest {
        [0x00, ..] => Ok(Reply::Active(None)),
        [_, more @ ..] => {
            if more.len() < 8 {
                return Err(WordFault::Length);
            }
            Ok(Reply::Active(Some(data::id(&more[..8])?)))
        }
        [] => Err(WordFault::Length),
    }
}

#[tactic(auto, using(crate::proofs::ReplyLemmas::shorts))]
fn size(rest: &[u8]) -> Result<Reply, WordFault>
    ensures { (unit : ℕ) → ReadsReply (framed 3 unit 0x94 rest.now) result }
{
    if rest.len() < 4 {
        return Err(WordFault::Length);
    }
    Ok(Reply::Size(data::time(&rest[..4])?))
}

#[tactic(auto, using(crate::proofs::ReplyLemmas::shorts))]
fn present(rest: &[u8]) -> Result<Reply, WordFault>
    ensures { (unit : ℕ) → ReadsReply (framed 3 unit 0x96 rest.now) result }
{
    match rest {
        [first, ..] => Ok(Reply::Present(*first & 1 == 1)),
        [] => Err(WordFault::Length),
    }
}

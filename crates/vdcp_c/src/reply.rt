//! Replies as a struct, as bytes and as text.
ghost use Rattle.std.specs.Prelude.{◌≡◌, ◌≢◌, IfSome, IsSome};
ghost use Rattle.vdcp_frame.specs.Message.{Content, spelling};
ghost use Rattle.vdcp_words.specs.Computed.{reply_of};
ghost use Rattle.vdcp_words.specs.Replies.{reply_message};
ghost use Rattle.vdcp_words.specs.Texts.{reply_text};
ghost use Rattle.vdcp_words.specs.declared.reply.Reply.{Reply};
ghost use Rattle.vdcp_c.specs.Commands.{IsReply, IsReadReply};
ghost use Rattle.vdcp_c.specs.Rooms.{IsPut, IsPutFrom};
ghost use Rattle.vdcp_c.specs.Told.{IsContent, bad_command, bad_message};

use crate::code::{BAD_COMMAND, BAD_MESSAGE, BAD_VALUE, OK};
use crate::message::{message_in, vdcp_message};
use crate::room::put_bytes;
use arrayvec::ArrayString;
use vdcp_value::ClipId;
use vdcp_value::laws::an_id_is_its_bytes;
use vdcp_words::Reply;

#[repr(C)]
#[derive(Clone, Copy)]
pub struct vdcp_reply {
    /// 1 ACK, 2 NAK, 3 to OPEN PORT, 4 to PORT STATUS REQUEST, 5 to ACTIVE ID REQUEST, 6 to ID REQUEST,
    /// 7 to ID SIZE REQUEST.
    pub word: u8,
    /// 1: the port was granted; a state byte follows; a clip plays; the clip is there. Else 0.
    pub yes: u8,
    /// The error byte of a NAK, or the bitmap of a status.
    pub byte: u8,
    pub state: u8,
    pub id: [u8; 8],
    /// The length, packed BCD: frames, seconds, minutes, hours.
    pub time: [u8; 4],
}

pub(crate) fn reply_in(r: &vdcp_reply) -> Option<Reply>
    ensures some { IfSome result (IsReply r.now) }
    ensures accepts { (reply : Reply) → IsReply r.now reply → IsSome result }
{
    an_id_is_its_bytes();
    match (r.word, r.yes) {
        (1, _) => Some(Reply::Ack),
        (2, _) => Some(Reply::Nak(r.byte)),
        (3, 0) => Some(Reply::Opened(false)),
        (3, 1) => Some(Reply::Opened(true)),
        (4, 0) => Some(Reply::State(r.byte, None)),
        (4, 1) => Some(Reply::State(r.byte, Some(r.state))),
        (5, 0) => Some(Reply::Active(None)),
        (5, 1) => Some(Reply::Active(Some(ClipId::new(r.id)))),
        (6, 0) => Some(Reply::Present(false)),
        (6, 1) => Some(Reply::Present(true)),
        (7, _) => Some(Reply::Size(r.time)),
        (_, _) => None,
    }
}

fn put_reply(reply: &Reply, out: &mut vdcp_reply)
    ensures { IsReply out.new reply.now }
{
    match *reply {
        Reply::Ack => out.word = 1,
        Reply::Nak(byte) => {
            out.word = 2;
            out.byte = byte;
        }
        Reply::Opened(granted) => {
            out.word = 3;
            out.yes = u8::from(granted);
        }
        Reply::State(bitmap, None) => {
            out.word = 4;
            out.byte = bitmap;
            out.yes = 0;
        }
        Reply::State(bitmap, Some(state)) => {
            out.word = 4;
            out.byte = bitmap;
            out.yes = 1;
            out.state = state;
        }
        Reply::Active(None) => {
            out.word = 5;
            out.yes = 0;
        }
        Reply::Active(Some(id)) => {
            out.word = 5;
            out.yes = 1;
            let bytes = id.bytes();
            out.id = bytes;
        }
        Reply::Present(there) => {
            out.word = 6;
            out.yes = u8::from(there);
        }
        Reply::Size(time) => {
            out.word = 7;
            out.time = time;
        }
    }
}

#[unsafe(no_mangle)]
pub extern "C" fn vdcp_reply_bytes(
    reply: &vdcp_reply,
    unit: u8,
    out: &mut [u8],
    written: &mut usize,
) -> i32
    ensures put { result ≢ bad_command → (r : Reply) × IsReply reply.now r
        × IsPutFrom unit (spelling (reply_message unit r)) out.old result written.new out.new }
    ensures accepts { (r : Reply) → IsReply reply.now r → result ≢ bad_command }
    ensures refused { result ≡ bad_command → (written.new ≡ 0) × (out.new ≡ out.old) }
{
    *written = 0;
    let Some(r) = reply_in(reply) else {
        return BAD_COMMAND;
    };
    if unit > 15 {
        return BAD_VALUE;
    }
    put_bytes(r.encode(unit).as_slice(), out, written)
}

#[unsafe(no_mangle)]
pub extern "C" fn vdcp_reply_of_message(message: &vdcp_message, reply: &mut vdcp_reply) -> i32
    ensures read { result ≢ bad_message → (m : Content) × IsContent message.now m
        × IsReadReply (reply_of m) result reply.old reply.new }
    ensures accepts { (m : Content) → IsContent message.now m → result ≢ bad_message }
    ensures refused { result ≡ bad_message → reply.new ≡ reply.old }
{
    let Some(message) = message_in(message) else {
        return BAD_MESSAGE;
    };
    match Reply::read(&message) {
        Ok(read) => {
            put_reply(&read, reply);
            OK
        }
        Err(_) => BAD_COMMAND,
    }
}

#[unsafe(no_mangle)]
pub extern "C" fn vdcp_reply_text(reply: &vdcp_reply, out: &mut [u8], written: &mut usize) -> i32
    ensures put { result ≢ bad_command → (r : Reply) × IsReply reply.now r
        × IsPut (reply_text r) out.old result written.new out.new }
    ensures accepts { (r : Reply) → IsReply reply.now r → result ≢ bad_command }
    ensures refused { result ≡ bad_command → (written.new ≡ 0) × (out.new ≡ out.old) }
{
    *written = 0;
    let Some(r) = reply_in(reply) else {
        return BAD_COMMAND;
    };
    let mut text = ArrayString::new();
    r.show(&mut text);
    put_bytes(text.as_str().as_bytes(), out, written)
}

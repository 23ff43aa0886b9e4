//! Messages as a struct and as bytes.
ghost use Rattle.std.specs.Prelude.{◌≡◌, ◌≢◌, IfSome, IsSome};
ghost use Rattle.vdcp_frame.specs.Message.{Content, content_of, spelling, IsWritable};
ghost use Rattle.vdcp_c.specs.Rooms.{IsPut};
ghost use Rattle.vdcp_c.specs.Told.{IsContent, bad_message};

use crate::code::BAD_MESSAGE;
use crate::room::put_bytes;
use arrayvec::ArrayVec;
use vdcp_frame::{Message, write};

#[repr(C)]
#[derive(Clone, Copy)]
pub struct vdcp_message {
    /// 1 for ACK, 2 for NAK, 3 for a framed message.
    pub kind: u8,
    /// The command type, 0 to 15.
    pub sort: u8,
    /// The unit address, 0 to 15.
    pub unit: u8,
    /// The command code; of a NAK the error byte.
    pub code: u8,
    /// How many bytes of data, 253 at most; of a fault its place in the burst.
    pub count: u32,
    pub data: [u8; 256],
}

pub(crate) fn put_message(message: &Message, out: &mut vdcp_message)
    requires { IsWritable (content_of message.now) }
    ensures { IsContent out.new (content_of message.now) }
{
    match *message {
        Message::Ack => put_byte(1, 0, out),
        Message::Nak(byte) => put_byte(2, byte, out),
        Message::Framed {
            kind,
            unit,
            code,
            rest,
        } => {
            out.kind = 3;
            out.sort = kind;
            out.unit = unit;
            out.code = code;
            out.count = rest.len() as u32;
            out.data[..rest.len()].copy_from_slice(rest);
        }
    }
}

fn put_byte(kind: u8, byte: u8, out: &mut vdcp_message)
    ensures { (out.new.kind ≡ kind) × (out.new.code ≡ byte) }
{
    out.kind = kind;
    out.sort = 0;
    out.unit = 0;
    out.code = byte;
    out.count = 0;
}

pub(crate) fn message_in(m: &vdcp_message) -> Option<Message<'_>>
    ensures some { IfSome result (λ message. IsContent m.now (content_of message)) }
    ensures writable { IfSome result (λ message. IsWritable (content_of message)) }
    ensures accepts { (content : Content) → IsContent m.now content → IsSome result }
{
    match m.kind {
        1 => Some(Message::Ack),
        2 => Some(Message::Nak(m.code)),
        3 if m.count <= 253 && m.sort < 16 && m.unit < 16 => Some(Message::Framed {
            kind: m.sort,
            unit: m.unit,
            code: m.code,
            rest: &m.data[..m.count as usize],
        }),
        _ => None,
    }
}

#[tactic(auto, using(crate::proofs::Contents::short_spelling))]
#[unsafe(no_mangle)]
pub extern "C" fn vdcp_message_bytes(
    message: &vdcp_message,
    out: &mut [u8],
    written: &mut usize,
) -> i32
    ensures put { result ≢ bad_message → (content : Content) × IsContent message.now content
        × IsPut (spelling content) out.old result written.new out.new }
    ensures accepts { (content : Content) → IsContent message.now content → result ≢ bad_message }
    ensures refused { result ≡ bad_message → (written.new ≡ 0) × (out.new ≡ out.old) }
{
    let Some(message) = message_in(message) else {
        *written = 0;
        return BAD_MESSAGE;
    };
    let mut bytes: ArrayVec<u8, 258> = ArrayVec::new();
    write(&message, &mut bytes).unwrap();
    put_bytes(bytes.as_slice(), out, written)
}

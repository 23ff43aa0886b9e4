//! How a message is written.
ghost use Rattle.std.specs.Prelude.{◌≡◌, ◌+◌, ◌*◌, ◌<◌, ◌≤◌, ◌↔◌, ◌++◌, length, IsOk, OnOk, OnErr};
ghost use Rattle.arrayvec.specs.ArrayVec.{array_vec_len};
ghost use Rattle.vdcp_frame.specs.Message.{content_of, FitsFrame, IsWritable, Spells, spelling, frame_spelling};

use crate::head::{ACK, FRAME, NAK, check_byte};
use crate::message::Message;
use arrayvec::ArrayVec;
use thiserror::Error;

#[derive(Clone, Copy, Debug, PartialEq, Eq, Error)]
#[error("no room for the message")]
pub struct Full;

/// Appends a message's bytes, with kind and unit at most 15, and at most 253 bytes of data. `Full`: the buffer has no
/// room for them, and stays as it was.
pub fn write<const N: usize>(message: &Message, out: &mut ArrayVec<u8, N>) -> Result<(), Full>
    requires { IsWritable (content_of message.now) }
    ensures spelt { Spells (content_of message.now) (spelling (content_of message.now)) }
    ensures ok { OnOk result (out.new.items ≡ out.old.items ++ spelling (content_of message.now)) }
    ensures full { IsOk result ↔ (array_vec_len out.old + length (spelling (content_of message.now)) ≤ N) }
    ensures err { OnErr result (out.new ≡ out.old) }
{
    match message {
        Message::Ack => out.try_extend_from_slice(&[ACK]).map_err(|_| Full),
        Message::Nak(byte) => out.try_extend_from_slice(&[NAK, *byte]).map_err(|_| Full),
        Message::Framed {
            kind,
            unit,
            code,
            rest,
        } => write_frame(*kind, *unit, *code, rest, out),
    }
}

fn write_frame<const N: usize>(
    kind: u8,
    unit: u8,
    code: u8,
    rest: &[u8],
    out: &mut ArrayVec<u8, N>,
) -> Result<(), Full>
    requires kind { kind < 16 }
    requires unit { unit < 16 }
    requires size { length rest.now ≤ 253 }
    ensures fits { FitsFrame kind unit code rest.now }
    ensures ok { OnOk result (out.new.items ≡ out.old.items ++ frame_spelling (16 * kind + unit) code rest.now) }
    ensures full { IsOk result ↔ (array_vec_len out.old + (length rest.now + 5) ≤ N) }
    ensures err { OnErr result (out.new ≡ out.old) }
{
    if out.remaining_capacity() < rest.len() + 5 {
        return Err(Full);
    }
    let address = 16 * kind + unit;
    out.try_extend_from_slice(&[FRAME, rest.len() as u8 + 2, address, code])
        .unwrap();
    out.try_extend_from_slice(rest).unwrap();
    out.push(check_byte(address, code, rest));
    Ok(())
}

//! The message format, read from the front of some bytes.
ghost use Rattle.vdcp_frame.specs.Message as spelt;
ghost use Rattle.std.specs.Prelude.{◌≡◌, ◌+◌, ◌*◌, ◌<◌, ◌≤◌, length, sum};

use crate::message::{Fault, Message};

pub(crate) const FRAME: u8 = 0x02;
/// The one byte of ACK.
pub(crate) const ACK: u8 = 0x04;
/// The first byte of NAK.
pub(crate) const NAK: u8 = 0x05;

/// The first byte, the count, the 255 bytes that it counts at most, and the checksum.
pub(crate) const LONGEST: usize = 258;

pub(crate) enum Head<'a> {
    /// Look again once there are at least this many bytes, 258 at most.
    Part(usize),
    /// A fault, and the length of the shortest front that shows it.
    Wrong(Fault, usize),
    Found(Message<'a>, usize),
}

impl Head<'_> {
    ghost use Rattle.vdcp_frame.specs.Seen.{seen, Means};
    ghost use Rattle.vdcp_frame.specs.Head.{head_of};

    pub(crate) fn at(bytes: &[u8]) -> Head<'_>
        ensures { Means bytes.now result }
    {
        Head::of(bytes)
    }

    pub(crate) fn of(bytes: &[u8]) -> Head<'_>
        ensures { seen result ≡ head_of bytes.now }
    {
        match bytes {
            [] => Head::Part(1),
            [ACK, ..] => Head::Found(Message::Ack, 1),
            [NAK] => Head::Part(2),
            [NAK, byte, ..] => Head::Found(Message::Nak(*byte), 2),
            [FRAME, left @ ..] => Head::of_frame(left),
            [_, ..] => Head::Wrong(Fault::BadStart, 1),
        }
    }

    ghost use Rattle.vdcp_frame.specs.Head.{size_of};

    pub(crate) fn size(self) -> usize
        ensures { result ≡ size_of (seen self.entry) }
    {
        match self {
            Head::Part(needs) => needs,
            Head::Wrong(_, size) => size,
            Head::Found(_, size) => size,
        }
    }

    ghost use Rattle.vdcp_frame.specs.Head.{frame_head};

    fn of_frame(bytes: &[u8]) -> Head<'_>
        ensures { seen result ≡ frame_head bytes.now }
    {
        match bytes {
            [] => Head::Part(2),
            [count, ..] if *count < 2 => Head::Wrong(Fault::BadCount(*count), 2),
            [count, body @ ..] => Head::of_body(*count as usize - 2, body),
        }
    }

    ghost use Rattle.vdcp_frame.specs.Head.{body_head};

    fn of_body(size: usize, bytes: &[u8]) -> Head<'_>
        requires { size < 254 }
        ensures { seen result ≡ body_head size bytes.now }
    {
        match bytes {
            [address, code, tail @ ..] if size < tail.len() => {
                let rest = &tail[..size];
                if tail[size] == check_byte(*address, *code, rest) {
                    let message = Message::Framed {
                        kind: *address / 16,
                        unit: *address % 16,
                        code: *code,
                        rest,
                    };
                    Head::Found(message, size + 5)
                } else {
                    Head::Wrong(Fault::BadSum, size + 5)
                }
            }
            _ => Head::Part(size + 5),
        }
    }
}

/// The checksum of a frame: the byte that brings the sum of CMD-1, CMD-2 and the data to 0 modulo 256.
pub(crate) fn check_byte(address: u8, code: u8, rest: &[u8]) -> u8
    requires { length rest.now ≤ 253 }
    ensures { result ≡ spelt.check_byte (address + code + sum rest.now) }
{
    let total = u32::from(address) + u32::from(code) + total_of(rest);
    ((256 - total % 256) % 256) as u8
}

fn total_of(bytes: &[u8]) -> u32
    requires { length bytes.now ≤ 256 }
    ensures total { result ≡ sum bytes.now }
    ensures bound { result ≤ 255 * length bytes.now }
{
    let mut total = 0;
    for byte in bytes {
        total += *byte as u32;
    }
    total
}

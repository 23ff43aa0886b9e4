//! The steps of a reader, for a caller that keeps the held bytes.
ghost use Rattle.std.specs.Prelude.{◌≡◌, ◌+◌, ◌≤◌, ◌++◌, ◌↔◌, ℕ, IsTrue, length, take};
ghost use Rattle.vdcp_frame.specs.Front.{CanHold, IsFront, is_part, looked_at};
ghost use Rattle.vdcp_frame.specs.Head.{head_of, size_of};
ghost use Rattle.vdcp_frame.specs.Progress.{reading};
ghost use Rattle.vdcp_frame.specs.Reader.{Gives, answer_of, more};
ghost use Rattle.vdcp_frame.specs.Reading.{IsUnfinished};

use crate::burst::LIMIT;
use crate::got::Got;
use crate::head::{FRAME, Head, LONGEST, NAK};
use crate::message::Fault;

/// Whether `held`, the last of `taken` bytes of a burst, 4,096 at most, can be the beginning of a message.
pub fn can_hold(taken: usize, held: &[u8]) -> bool
    ensures { IsTrue result ↔ CanHold taken held.now }
{
    taken <= LIMIT && held.len() <= taken && is_part(held)
}

fn is_part(bytes: &[u8]) -> bool
    ensures { IsTrue result ↔ IsUnfinished bytes.now }
{
    needs_more(bytes)
}

fn needs_more(bytes: &[u8]) -> bool
    ensures { result ≡ is_part (head_of bytes.now) }
{
    match bytes {
        [] | [FRAME] | [NAK] => true,
        [FRAME, count, ..] => *count >= 2 && bytes.len() < *count as usize + 3,
        [_, ..] => false,
    }
}

/// Fills the buffer from byte `held` on with bytes of the piece, and gives their number. The message's end stops it, and so
/// does the burst's limit: `taken` bytes of the burst came before, the held ones among them.
pub fn fill(buffer: &mut [u8; LONGEST], taken: usize, held: usize, piece: &[u8]) -> usize
    requires held { held ≤ 258 }
    requires can { CanHold taken (take held buffer.old) }
    ensures within { held + result ≤ 258 }
    ensures front { IsFront taken held piece.now result (take (held + result) buffer.new) }
    ensures kept { take held buffer.new ≡ take held buffer.old }
{
    let size = size_shown(&buffer[..held], piece).max(2).min(LONGEST);
    let count = piece
        .len()
        .min(LIMIT - taken)
        .min(size.saturating_sub(held));
    put(buffer, held, &piece[..count]);
    count
}

fn size_shown(held: &[u8], piece: &[u8]) -> usize
    ensures { result ≡ size_of (head_of (looked_at held.now piece.now)) }
{
    match (held, piece) {
        ([], [first, second, ..]) => Head::of(&[*first, *second]).size(),
        ([first], [second, ..]) => Head::of(&[*first, *second]).size(),
        ([FRAME, count, _, ..], _) if *count >= 2 => *count as usize + 3,
        (_, _) => Head::of(held).size(),
    }
}

fn put(buffer: &mut [u8], at: usize, piece: &[u8])
    requires { at + length piece.now ≤ length buffer.old }
    ensures { take (at + length piece.now) buffer.new ≡ take at buffer.old ++ piece.now }
{
    buffer[at..at + piece.len()].copy_from_slice(piece);
}

/// What `Reader::feed` gives, and how many bytes it takes. `front` is the held bytes and those that `fill` copied.
pub fn read_front<'a>(front: &'a [u8], taken: usize, held: usize, piece: &[u8]) -> (usize, Got<'a>)
    requires { (n : ℕ) × IsFront taken held piece.now n front.now }
    ensures gives { Gives (reading taken (take held front.now)) piece.now result.0 (answer_of result.1) }
    ensures whole { answer_of result.1 ≡ more → length front.now ≡ held + result.0 }
{
    match Head::at(front) {
        Head::Found(message, size) => (size - held, Got::Message(message)),
        Head::Wrong(fault, size) => (size - held, Got::Fault(fault, taken + (size - held))),
        Head::Part(_) if front.len() - held == piece.len() => (piece.len(), Got::More),
        Head::Part(_) => (front.len() - held + 1, Got::Fault(Fault::Long, LIMIT + 1)),
    }
}

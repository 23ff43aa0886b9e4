//! The streaming reader as a struct, and the calls that it takes.
ghost use Rattle.std.specs.Prelude.{ℕ, ◌≡◌, ◌≢◌, ◌≤◌, ◌+◌, ◌++◌, IsTrue, IsFalse, List, length, pos, take, []};
ghost use Rattle.vdcp_frame.specs.Progress.{Progress, reading};
ghost use Rattle.vdcp_frame.specs.Reader.{Answer, answer_of, ended_of};
ghost use Rattle.vdcp_c.specs.Readers.{IsAt, IsMoved, IsFed, IsWritableAnswer};
ghost use Rattle.vdcp_c.specs.Told.{Shows, code_of, fault_code, end_code, bad_state};

use crate::code::BAD_STATE;
use crate::message::{put_message, vdcp_message};
use vdcp_frame::laws::what_is_spelt_is_bytes;
use vdcp_frame::{Fault, Got, LIMIT, can_hold, fill, read_front};

/// What stands in `taken` after a fault.
const FAILED: u16 = 65535;

const MORE: i32 = 0;
/// A message has come.
const MESSAGE: i32 = 1;

/// A streaming reader. All bytes 0: at the start of a burst.
#[repr(C)]
#[derive(Clone, Copy)]
pub struct vdcp_reader {
    /// How many bytes of the burst it took; 65,535 after a fault.
    pub taken: u16,
    /// How many of them it holds, since they begin a message.
    pub held: u16,
    pub bytes: [u8; 258],
}

/// Takes bytes of a burst until one message or one fault has ended, or else all of them.
#[unsafe(no_mangle)]
pub extern "C" fn vdcp_reader_feed(
    reader: &mut vdcp_reader,
    piece: &[u8],
    taken: &mut usize,
    message: &mut vdcp_message,
) -> i32
    ensures fed { result ≢ bad_state → (p : Progress) × IsAt reader.old p
        × IsFed p piece.now result taken.new message.new reader.new }
    ensures accepts { (p : Progress) → IsAt reader.old p → result ≢ bad_state }
    ensures refused { result ≡ bad_state → (reader.new ≡ reader.old) × (taken.new ≡ 0) × (message.new ≡ message.old) }
{
    if reader.held == 0 && can_go_on(reader) {
        return begin(reader, piece, taken, message);
    }
    if reader.taken == FAILED {
        *taken = piece.len();
        return MORE;
    }
    if !can_go_on(reader) {
        *taken = 0;
        return BAD_STATE;
    }
    go_on(reader, piece, taken, message)
}

fn can_go_on(reader: &vdcp_reader) -> bool
    ensures is { IsTrue result → IsAt reader.now (reading reader.now.taken (take reader.now.held reader.now.bytes)) }
    ensures accepts { (taken : ℕ) (held : List ℕ) → IsAt reader.now (reading taken held) → IsTrue result }
{
    let held = reader.held as usize;
    held <= 258 && can_hold(reader.taken as usize, &reader.bytes[..held])
}

fn begin(
    reader: &mut vdcp_reader,
    piece: &[u8],
    taken: &mut usize,
    message: &mut vdcp_message,
) -> i32
    requires { IsAt reader.old (reading reader.old.taken []) }
    ensures fed { IsFed (reading reader.old.taken []) piece.now result taken.new message.new reader.new }
{
    what_is_spelt_is_bytes();
    let at = reader.taken as usize;
    let count = piece.len().min(LIMIT - at);
    let (n, got) = read_front(&piece[..count], at, 0, piece);
    let code = tell(&got, message);
    if code == MORE {
        reader.bytes[..n].copy_from_slice(&piece[..n]);
    }
    move_on(reader, at, 0, n, code);
    *taken = n;
    code
}

// Inside a message a short piece is mostly only held, and nothing has to be read.
fn go_on(
    reader: &mut vdcp_reader,
    piece: &[u8],
    taken: &mut usize,
    message: &mut vdcp_message,
) -> i32
    requires { IsAt reader.old (reading reader.old.taken (take reader.old.held reader.old.bytes)) }
    ensures fed { IsFed (reading reader.old.taken (take reader.old.held reader.old.bytes)) piece.now
        result taken.new message.new reader.new }
{
    if hold(reader, piece) {
        *taken = piece.len();
        return MORE;
    }
    read_on(reader, piece, taken, message)
}

fn hold(reader: &mut vdcp_reader, piece: &[u8]) -> bool
    requires { IsAt reader.old (reading reader.old.taken (take reader.old.held reader.old.bytes)) }
    ensures fed { IsTrue result → (m : vdcp_message) →
        IsFed (reading reader.old.taken (take reader.old.held reader.old.bytes)) piece.now
        (pos 0) (length piece.now) m reader.new }
    ensures taken { IsFalse result → reader.new.taken ≡ reader.old.taken }
    ensures held { IsFalse result → reader.new.held ≡ reader.old.held }
    ensures bytes { IsFalse result → take reader.old.held reader.new.bytes ≡ take reader.old.held reader.old.bytes }
{
    let (at, held) = (reader.taken as usize, reader.held as usize);
    if piece.len() > 258 - held {
        return false;
    }
    append(&mut reader.bytes, held, piece);
    let (at, held) = (at + piece.len(), held + piece.len());
    if !can_hold(at, &reader.bytes[..held]) {
        return false;
    }
    reader.taken = at as u16;
    reader.held = held as u16;
    true
}

fn append(bytes: &mut [u8], at: usize, piece: &[u8])
    requires { at + length piece.now ≤ length bytes.old }
    ensures joined { take (at + length piece.now) bytes.new ≡ take at bytes.old ++ piece.now }
    ensures kept { take at bytes.new ≡ take at bytes.old }
{
    bytes[at..at + piece.len()].copy_from_slice(piece);
}

fn read_on(
    reader: &mut vdcp_reader,
    piece: &[u8],
    taken: &mut usize,
    message: &mut vdcp_message,
) -> i32
    requires { IsAt reader.old (reading reader.old.taken (take reader.old.held reader.old.bytes)) }
    ensures fed { IsFed (reading reader.old.taken (take reader.old.held reader.old.bytes)) piece.now
        result taken.new message.new reader.new }
{
    let (at, held) = (reader.taken as usize, reader.held as usize);
    let count = fill(&mut reader.bytes, at, held, piece);
    let (n, got) = read_front(&reader.bytes[..held + count], at, held, piece);
    let code = tell(&got, message);
    move_on(reader, at, held, n, code);
    *taken = n;
    code
}

fn tell(got: &Got, message: &mut vdcp_message) -> i32
    requires { IsWritableAnswer (answer_of got.now) }
    ensures code { result ≡ code_of (answer_of got.now) }
    ensures shows { Shows message.new (answer_of got.now) }
{
    match got {
        Got::More => MORE,
        Got::Message(came) => {
            put_message(came, message);
            MESSAGE
        }
        Got::Fault(fault, place) => {
            message.count = *place as u32;
            fault_in(*fault)
        }
    }
}

fn fault_in(fault: Fault) -> i32
    ensures { result ≡ fault_code fault }
{
    match fault {
        Fault::BadStart => 2,
        Fault::BadCount(_) => 3,
        Fault::BadSum => 4,
        Fault::Long => 5,
    }
}

fn move_on(reader: &mut vdcp_reader, at: usize, held: usize, n: usize, code: i32)
    requires at { at + n ≤ 4097 }
    requires held { held ≤ 258 }
    ensures moved { (answer : Answer) → code ≡ code_of answer → IsMoved at held n answer reader.new }
    ensures bytes { reader.new.bytes ≡ reader.old.bytes }
{
    match code {
        MORE => {
            reader.taken = (at + n) as u16;
            reader.held = (held + n) as u16;
        }
        MESSAGE => {
            reader.taken = (at + n) as u16;
            reader.held = 0;
        }
        _ => reader.taken = FAILED,
    }
}

/// The burst ends here: 0 after a whole message or with no byte, 1 inside a message, 2 after a fault.
#[unsafe(no_mangle)]
pub extern "C" fn vdcp_reader_silence(reader: &mut vdcp_reader) -> i32
    ensures ended { result ≢ bad_state → (p : Progress) × IsAt reader.old p × (result ≡ end_code (ended_of p))
        × IsAt reader.new (reading 0 []) }
    ensures accepts { (p : Progress) → IsAt reader.old p → result ≢ bad_state }
    ensures refused { result ≡ bad_state → reader.new ≡ reader.old }
{
    let ended = end_in(reader);
    if ended != BAD_STATE {
        reader.taken = 0;
        reader.held = 0;
    }
    ended
}

fn end_in(reader: &vdcp_reader) -> i32
    ensures ended { result ≢ bad_state → (p : Progress) × IsAt reader.now p × (result ≡ end_code (ended_of p)) }
    ensures accepts { (p : Progress) → IsAt reader.now p → result ≢ bad_state }
{
    if reader.taken == FAILED {
        return 2;
    }
    if !can_go_on(reader) {
        return BAD_STATE;
    }
    match &reader.bytes[..reader.held as usize] {
        [] => 0,
        [_, ..] => 1,
    }
}

//! A journal's last row that lacks only its line feed, and may have put a clip to air.
ghost use Rattle.std.specs.Prelude.{◌≡◌, [], IfOk, IfSome, option_map};
ghost use Rattle.vdcp_journal_file.specs.Torn.{closed, closing_left, fits, fits_place, held_with, is_hex, may_air, says_done, says_playing, torn_after};

use arrayvec::ArrayVec;
use std::io::{self, Read};

/// A PLAY's row: 0 is any digit, x any hexadecimal one.
const PLAY: &[u8; 45] = b"0000-00-00T00:00:00.000Z,sent,play,xxxxxxxxxx";

/// A state with the cue done while a clip plays, which announces a PLAY: the digits D and P say so.
const ANNOUNCING: &[u8; 54] = b"0000-00-00T00:00:00.000Z,heard,state DP,xxxxxxxxxxxxxx";

// A line of this length is longer than either row.
const MOST: usize = 55;

/// Reads a journal's bytes, and behind them the line feed that the last row lacks, if that may have put a clip to air.
#[derive(Drop)]
pub(crate) struct Closing<R> {
    reader: R,
    torn: ArrayVec<u8, MOST>,
    is_over: bool,
}

impl<R: Read> Closing<R> {
    pub(crate) fn new(reader: R) -> Closing<R>
        ensures { closing_left R.remaining result ≡ option_map closed (R.remaining reader) }
    {
        Closing {
            reader,
            torn: ArrayVec::new(),
            is_over: false,
        }
    }
}

impl<R: Read> Read for Closing<R> {
    ghost use Rattle.vdcp_journal_file.specs.Torn.{closing_left};

    ghost remaining = { closing_left R.remaining };

    fn read(&mut self, buffer: &mut [u8]) -> io::Result<usize> {
        if self.is_over || buffer.is_empty() {
            return Ok(0);
        }
        let count = self.reader.read(buffer)?;
        if count > 0 {
            hold(&mut self.torn, &buffer[..count]);
            return Ok(count);
        }
        self.is_over = true;
        if !may_air(self.torn.as_slice()) {
            return Ok(0);
        }
        buffer[0] = b'\n';
        Ok(1)
    }
}

pub(crate) fn lacks_feed(text: &[u8]) -> bool
    ensures { result ≡ may_air (torn_after [] text.now) }
{
    let mut torn = ArrayVec::new();
    hold(&mut torn, text);
    may_air(torn.as_slice())
}

#[tactic(auto, using(crate::proofs::Closing::torn_next))]
fn hold(torn: &mut ArrayVec<u8, MOST>, bytes: &[u8])
    ensures { torn.new.items ≡ torn_after torn.old.items bytes.now }
{
    for byte in bytes {
        hold_one(torn, *byte);
    }
}

fn hold_one(torn: &mut ArrayVec<u8, MOST>, byte: u8)
    ensures { torn.new.items ≡ held_with torn.old.items byte }
{
    if byte == b'\n' {
        torn.clear();
    } else if torn.len() < MOST {
        torn.push(byte);
    }
}

fn may_air(row: &[u8]) -> bool
    ensures { result ≡ may_air row.now }
{
    fits(PLAY, row) || fits(ANNOUNCING, row)
}

fn fits(form: &[u8], text: &[u8]) -> bool
    ensures { result ≡ fits form.now text.now }
{
    match form {
        [] => text.is_empty(),
        [place, form @ ..] => match text {
            [] => false,
            [byte, text @ ..] => fits_place(*place, *byte) && fits(form, text),
        },
    }
}

fn fits_place(place: u8, byte: u8) -> bool
    ensures { result ≡ fits_place place byte }
{
    match place {
        b'0' => byte.is_ascii_digit(),
        b'x' => is_hex(byte),
        b'D' => says_done(byte),
        b'P' => says_playing(byte),
        _ => place == byte,
    }
}

fn is_hex(byte: u8) -> bool
    ensures { result ≡ is_hex byte }
{
    byte.is_ascii_digit() || (b'a' <= byte && byte <= b'f')
}

fn says_done(byte: u8) -> bool
    ensures { result ≡ says_done byte }
{
    b'8' <= byte && is_hex(byte)
}

fn says_playing(byte: u8) -> bool
    ensures { result ≡ says_playing byte }
{
    (b'4' <= byte && byte <= b'7') || (b'c' <= byte && byte <= b'f')
}

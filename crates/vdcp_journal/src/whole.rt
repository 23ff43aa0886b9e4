//! The whole lines of a file.
ghost use Rattle.std.specs.Io.KnownBytes.{Consumes, IsAtEnd, Keeps};
ghost use Rattle.std.specs.List.{position};
ghost use Rattle.std.specs.Prelude.{◌≡◌, ◌<◌, ◌≤◌, ◌+◌, ◌-◌, ◌==◌, ◌++◌, ℕ, List, IfOk, OnErr, OnOk, drop, length, option_map, take, vec_len};

use std::alloc::{AllocError, Global};
use std::io::{self, ErrorKind, Read};

// With its line feed.
const LONGEST_LINE: usize = 65_537;

/// Gives the whole lines of another reader. What follows the last line feed is left out, as of a row that was torn when its
/// writer was killed.
///
/// It holds 64 KiB and a line feed at the most: at a longer line, also a torn one, each read fails as `FileTooLarge`. After
/// another failure it goes on where it was.
#[derive(Drop)]
pub struct WholeLines<R> {
    reader: R,
    // Bytes were read up to `filled`; those up to `whole` are lines, of which those up to `given` were given.
    held: Vec<u8>,
    given: usize,
    whole: usize,
    filled: usize,
    number: usize,
    ghost given_within: { given ≤ whole },
    ghost whole_within: { whole ≤ filled },
    ghost filled_within: { filled ≤ vec_len held },
}

impl<R: Read> WholeLines<R> {
    ghost use Rattle.vdcp_journal.specs.Reading.{begun_held, line_held, lines_left, whole_lines};

    /// Takes all its memory here, and reads nothing yet.
    pub fn new(alloc: Global, reader: R) -> Result<WholeLines<R>, AllocError>
    where
        R: Drop,
        ensures { IfOk result (λ lines.
            lines_left R.remaining lines ≡ option_map whole_lines (R.remaining reader)) }
    {
        let held = vec![in alloc; 0; LONGEST_LINE]?;
        Ok(WholeLines {
            reader,
            held,
            given: 0,
            whole: 0,
            filled: 0,
            number: 0,
        })
    }

    /// The number, counted from 1, of the line at which each read fails, if there is one.
    pub fn long_line(&self) -> Option<usize> {
        if self.whole == 0 && self.filled == self.held.len() {
            return Some(self.number.saturating_add(1));
        }
        None
    }

    // Finds the next line once all that were found are given.
    fn find_line(&mut self) -> io::Result<()>
        ensures kept { Keeps (lines_left R.remaining self.old) (lines_left R.remaining self.new) }
        ensures none { OnOk result (self.new.given ≡ self.new.whole → IsAtEnd (lines_left R.remaining self.new)) }
    {
        if self.given < self.whole {
            return Ok(());
        }
        loop {
            match self.line_feed() {
                Some(place) => {
                    self.add_line(place + 1);
                    return Ok(());
                }
                None => {
                    if self.read_on()? == 0 {
                        return Ok(());
                    }
                }
            }
        }
    }

    fn line_feed(&self) -> Option<usize>
        ensures { result ≡ position (λ byte. byte == 10) (begun_held self.now) }
    {
        let begun = &self.held[self.whole..self.filled];
        begun.iter().position(|byte| *byte == b'\n')
    }

    fn add_line(&mut self, size: usize)
        requires given { self.old.given ≡ self.old.whole }
        requires within { size ≤ length (begun_held self.old) }
        ensures line { line_held self.new ≡ take size (begun_held self.old) }
        ensures begun { begun_held self.new ≡ drop size (begun_held self.old) }
        ensures more { self.new.whole ≡ self.new.given + size }
        ensures reader { self.new.reader ≡ self.old.reader }
    {
        self.whole += size;
        self.number = self.number.saturating_add(1);
    }

    fn read_on(&mut self) -> io::Result<usize>
        requires { self.old.given ≡ self.old.whole }
        ensures given { self.new.given ≡ self.new.whole }
        ensures room { vec_len self.new.held ≡ vec_len self.old.held }
        ensures count { IfOk result (λ count.
            self.new.filled - self.new.whole ≡ self.old.filled - self.old.whole + count) }
        ensures bytes { IfOk result (λ count. (piece : List ℕ)
            × (begun_held self.new ≡ begun_held self.old ++ piece)
            × Consumes (R.remaining self.old.reader) (R.remaining self.new.reader) piece) }
        ensures end { IfOk result (λ count. count ≡ 0 → (begun_held self.new ≡ begun_held self.old)
            × IsAtEnd (R.remaining self.new.reader)) }
        ensures begun { OnErr result (begun_held self.new ≡ begun_held self.old) }
        ensures reader { OnErr result (Keeps (R.remaining self.old.reader) (R.remaining self.new.reader)) }
    {
        self.make_room();
        if self.filled == self.held.len() {
            return Err(io::Error::from(ErrorKind::FileTooLarge));
        }
        let count = self.reader.read(&mut self.held[self.filled..])?;
        self.filled += count;
        Ok(count)
    }

    fn make_room(&mut self)
        ensures given { self.new.given ≡ 0 }
        ensures whole { self.new.whole ≡ 0 }
        ensures filled { self.new.filled ≡ self.old.filled - self.old.whole }
        ensures room { vec_len self.new.held ≡ vec_len self.old.held }
        ensures begun { begun_held self.new ≡ begun_held self.old }
        ensures reader { self.new.reader ≡ self.old.reader }
    {
        let begun = self.whole;
        self.held.copy_within(begun..self.filled, 0);
        self.given = 0;
        self.whole = 0;
        self.filled -= begun;
    }
}

impl<R: Read> Read for WholeLines<R> {
    ghost use Rattle.vdcp_journal.specs.Reading.{lines_left};

    ghost remaining = { lines_left R.remaining };

    fn read(&mut self, buffer: &mut [u8]) -> io::Result<usize> {
        self.find_line()?;
        let mut line = &self.held[self.given..self.whole];
        let count = line.read(buffer)?;
        self.given += count;
        Ok(count)
    }
}

//! A writer of whole lines that never blocks.
use crate::screen::write_at_once;
use arrayvec::{ArrayString, ArrayVec};
use std::fmt::Write;
use std::io;

const MOST_BYTES: usize = 1024;

/// Writes lines that never wait for their reader. Each goes to the writer once it has ended, or has more than 1,023 bytes.
///
/// If the writer takes nothing (`WouldBlock`), the rest of the line waits, and further lines are dropped; the next that
/// goes out is then `dropped` and how many. (Of a line that is longer the rest is left out.) It fails if the writer fails.
#[derive(Drop)]
pub struct Lines<W: io::Write> {
    writer: W,
    line: ArrayVec<u8, MOST_BYTES>,
    stage: Stage,
    dropped: u64,
}

#[derive(Clone, Copy)]
enum Stage {
    Held,
    // The next bytes begin a line. Of the held line this many bytes went out.
    Ended(usize),
    // The next bytes are dropped, up to the end of their line. Of the held line this many bytes went out.
    Dropped(usize),
}

impl<W: io::Write> Lines<W> {
    pub fn new(writer: W) -> Self {
        Lines {
            writer,
            line: ArrayVec::new(),
            stage: Stage::Held,
            dropped: 0,
        }
    }

    fn begin(&mut self, gone: usize) -> io::Result<Stage> {
        let gone = self.go_on(gone)?;
        if gone < self.line.len() {
            self.dropped = self.dropped.saturating_add(1);
            return Ok(Stage::Dropped(gone));
        }
        if self.dropped > 0 {
            self.hold_count();
            let gone = self.go_on(0)?;
            if gone < self.line.len() {
                self.dropped = 1;
                return Ok(Stage::Dropped(gone));
            }
        }
        self.line.clear();
        Ok(Stage::Held)
    }

    fn hold_count(&mut self) {
        let mut count = ArrayString::<32>::new();
        let dropped = self.dropped;
        let _ = writeln!(count, "dropped {dropped}");
        self.line.clear();
        let _ = self.line.try_extend_from_slice(count.as_bytes());
        self.dropped = 0;
    }

    // A long line goes out before it ends. If it would wait, it ends here.
    fn hold(&mut self, bytes: &[u8]) -> io::Result<Stage> {
        for byte in bytes {
            if self.line.remaining_capacity() <= 1 {
                let gone = self.go_on(0)?;
                if gone < self.line.len() {
                    let _ = self.line.try_push(b'\n');
                    return Ok(Stage::Dropped(gone));
                }
                self.line.clear();
            }
            let _ = self.line.try_push(*byte);
        }
        Ok(Stage::Held)
    }

    fn hold_last(&mut self, bytes: &[u8]) -> io::Result<Stage> {
        match self.hold(bytes)? {
            Stage::Held => {
                let _ = self.line.try_push(b'\n');
                Ok(Stage::Ended(self.go_on(0)?))
            }
            Stage::Ended(gone) | Stage::Dropped(gone) => Ok(Stage::Ended(gone)),
        }
    }

    // `gone` bytes of the line went out before; the result counts all that went out by now.
    fn go_on(&mut self, gone: usize) -> io::Result<usize> {
        let line = self.line.as_slice();
        let left = &line[gone.min(line.len())..];
        if left.is_empty() {
            return Ok(gone);
        }
        let count = write_at_once(&mut self.writer, left)?;
        if count == left.len() {
            self.writer.flush()?;
        }
        Ok(gone.saturating_add(count))
    }
}

impl<W: io::Write> io::Write for Lines<W> {
    fn write(&mut self, bytes: &[u8]) -> io::Result<usize> {
        if bytes.is_empty() {
            return Ok(0);
        }
        if let Stage::Ended(gone) = self.stage {
            self.stage = self.begin(gone)?;
        }
        let end = bytes.iter().position(|byte| *byte == b'\n');
        self.stage = match (self.stage, end) {
            (Stage::Held, Some(end)) => self.hold_last(&bytes[..end])?,
            (Stage::Held, None) => self.hold(bytes)?,
            (Stage::Ended(gone) | Stage::Dropped(gone), Some(_)) => Stage::Ended(gone),
            (Stage::Ended(gone) | Stage::Dropped(gone), None) => Stage::Dropped(gone),
        };
        match end {
            Some(end) => Ok(end + 1),
            None => Ok(bytes.len()),
        }
    }

    // (each line is flushed as it ends)
    fn flush(&mut self) -> io::Result<()> {
        Ok(())
    }
}

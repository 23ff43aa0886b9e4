//! One row of a capture.
use crate::log::{Direction, Log};
use arrayvec::ArrayVec;
use std::io;
use vdcp_text::HexText;

const MOST_HELD: usize = 512;

/// A burst's row, whose TIME is empty. It is written at the burst's end; of a long burst the first bytes are written before.
#[derive(Drop)]
pub struct Row {
    pub direction: Direction,
    held: ArrayVec<u8, MOST_HELD>,
    is_begun: bool,
}

impl Row {
    pub fn new(direction: Direction) -> Self {
        Row {
            direction,
            held: ArrayVec::new(),
            is_begun: false,
        }
    }

    pub fn add<L: io::Write + Drop>(&mut self, log: &Log<L>, bytes: &[u8]) {
        for byte in bytes {
            if self.held.is_full() {
                self.put(log);
            }
            let _ = self.held.try_push(*byte);
        }
    }

    pub fn end<L: io::Write + Drop>(&mut self, log: &Log<L>) {
        if self.is_begun || !self.held.is_empty() {
            self.put(log);
            log.capture(&"\n");
            self.is_begun = false;
        }
    }

    /// Ends what is written of a long row, since another row follows. What is held comes later.
    pub fn part<L: io::Write + Drop>(&mut self, log: &Log<L>) {
        if self.is_begun {
            self.end(log);
        }
    }

    fn put<L: io::Write + Drop>(&mut self, log: &Log<L>) {
        let digits = HexText(self.held.as_slice());
        if self.is_begun {
            log.capture(&digits);
        } else {
            let way = self.direction.way(log.side);
            log.capture(&format_args!(",{way},{digits}"));
        }
        self.is_begun = true;
        self.held.clear();
    }
}

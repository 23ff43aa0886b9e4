//! A source that isn't read on if a row doesn't end.
ghost use Rattle.std.specs.Prelude.{◌≡◌};

use std::cell::Cell;
use std::io;
use std::io::Read;

/// How many bytes a row has at most, from the end of the row before it.
pub const LONGEST_ROW: usize = 65_536;

/// The source of a file's rows, which fails if a row is longer than it may be.
#[derive(Drop)]
pub struct Bounded<R> {
    source: R,
    // How many more bytes it gives before the next row begins.
    left: Cell<usize>,
}

impl<R> Bounded<R> {
    pub(crate) fn new(source: R) -> Bounded<R>
        ensures { result.source ≡ source }
    {
        Bounded {
            source,
            left: Cell::new(LONGEST_ROW + 1),
        }
    }

    pub(crate) fn begin_row(&self) {
        self.left.set(LONGEST_ROW + 1);
    }

    pub(crate) fn is_spent(&self) -> bool {
        self.left.get() == 0
    }
}

impl<R: Read> Read for Bounded<R> {
    ghost remaining = { λ b. R.remaining b.source };

    fn read(&mut self, buffer: &mut [u8]) -> io::Result<usize> {
        if self.is_spent() {
            return Err(io::Error::from(io::ErrorKind::FileTooLarge));
        }
        let count = self.source.read(buffer)?;
        self.left.set(self.left.get().saturating_sub(count));
        Ok(count)
    }
}

//! The size of a file's whole lines.
ghost use Rattle.std.specs.Prelude.{◌≡◌, IfOk, IfSome, length};
ghost use Rattle.vdcp_journal.specs.Reading.{whole_lines};

use crate::whole::WholeLines;
use std::alloc::Global;
use std::io::{self, ErrorKind, Read};

/// How many bytes the whole lines of a reader have; what follows them is torn.
pub fn size_of_lines<R: Read + Drop>(alloc: Global, reader: R) -> io::Result<usize>
    ensures { IfOk result (λ size. IfSome (R.remaining reader) (λ bytes. size ≡ length (whole_lines bytes))) }
{
    let mut lines = match WholeLines::new(alloc, reader) {
        Ok(lines) => lines,
        Err(_) => return Err(io::Error::from(ErrorKind::OutOfMemory)),
    };
    let mut piece = [0; 4096];
    let mut size = 0usize;
    for _ in 0..u64::MAX {
        let count = lines.read(piece.as_mut_slice())?;
        if count == 0 {
            return Ok(size);
        }
        size = match size.checked_add(count) {
            Some(more) => more,
            None => return Err(io::Error::from(ErrorKind::FileTooLarge)),
        };
    }
    Err(io::Error::from(ErrorKind::FileTooLarge))
}

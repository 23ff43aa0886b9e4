//! The lines of a file, each read when it is asked for.
ghost use Rattle.std.specs.Prelude.{◌≡◌, ◌⊎◌, IfErr, IfOk};
ghost use Rattle.vdcp_files.specs.Files.{IsUnread};
ghost use Rattle.vdcp_files.specs.Lines.{TakesLine, text_left};
ghost use Rattle.vdcp_text.specs.declared.failure.Failure.TheVariants as failures;

use std::alloc::Global;
use std::io::{self, BufRead, BufReader, ErrorKind, Lines, Read};
use vdcp_text::{Failure, ScriptLineFault};

pub(crate) const LONGEST_LINE: usize = 65_536;

/// Ends with an error at the first line that is too long.
#[derive(Drop)]
pub struct Lined<R> {
    reader: R,
    most: usize,
    // The line that is read, from 1, and how many bytes of it there are.
    number: usize,
    size: usize,
}

impl<R> Lined<R> {
    pub(crate) fn new(reader: R, most: usize) -> Lined<R>
        ensures { result.reader ≡ reader }
    {
        Lined {
            reader,
            most,
            number: 1,
            size: 0,
        }
    }

    pub(crate) fn number(&self) -> usize {
        self.number
    }

    fn go_over(&mut self, bytes: &[u8])
        ensures { self.new.reader ≡ self.old.reader }
    {
        for byte in bytes {
            if self.size > self.most {
                return;
            }
            if *byte == b'\n' {
                self.number = self.number.saturating_add(1);
                self.size = 0;
            } else {
                self.size = self.size.saturating_add(1);
            }
        }
    }
}

impl<R: Read> Read for Lined<R> {
    ghost remaining = { λ l. R.remaining l.reader };

    fn read(&mut self, buffer: &mut [u8]) -> io::Result<usize> {
        if self.size > self.most {
            return Err(io::Error::from(ErrorKind::FileTooLarge));
        }
        let count = self.reader.read(buffer)?;
        self.go_over(&buffer[..count]);
        Ok(count)
    }
}

pub type FileLines<R> = Lines<BufReader<Lined<R>>>;

/// It fails only for want of memory.
pub fn lines_in<R: Read + Drop>(alloc: Global, reader: R) -> io::Result<FileLines<R>>
    ensures { IfOk result (λ lines. text_left R.remaining lines ≡ R.remaining reader) }
{
    // A carriage return before the line feed isn't of the line.
    let reader = BufReader::new(alloc, Lined::new(reader, LONGEST_LINE + 1))?;
    Ok(reader.lines(alloc))
}

/// The next line, without its end. `ScriptLine` (over 64 KiB), `NotText`, `Read` and `Memory` end the reading.
pub fn next_line<'a, R: Read + Drop>(
    lines: &mut FileLines<R>,
    name: &'a str,
    number: usize,
) -> Result<Option<String>, Failure<'a>>
    ensures takes { IfOk result (TakesLine (text_left R.remaining lines.old) (text_left R.remaining lines.new)) }
    ensures refused { IfErr result (λ failure. (failure ≡ failures.NotText name.entry) ⊎ IsUnread name.entry failure) }
{
    match lines.next() {
        None => Ok(None),
        Some(Ok(line)) if line.len() > LONGEST_LINE => {
            Err(Failure::ScriptLine(name, number, ScriptLineFault::Long))
        }
        Some(Ok(line)) => Ok(Some(line)),
        Some(Err(error)) if error.kind() == ErrorKind::InvalidData => Err(Failure::NotText(name)),
        Some(Err(error)) => Err(line_failure(name, number, &error)),
    }
}

pub(crate) fn line_failure<'a>(name: &'a str, number: usize, error: &io::Error) -> Failure<'a>
    ensures { IsUnread name.entry result }
{
    match error.kind() {
        ErrorKind::FileTooLarge => Failure::ScriptLine(name, number, ScriptLineFault::Long),
        ErrorKind::OutOfMemory => Failure::Memory,
        _ => Failure::Read(name),
    }
}

//! How the lines that are typed become calls.
ghost use Rattle.std.specs.Io.KnownBytes.{Consumes, IsAtEnd, Keeps};
ghost use Rattle.std.specs.Option.{option_to_list};
ghost use Rattle.std.specs.Prelude.{◌≡◌, ◌<◌, ◌≤◌, ◌∷◌, ◌++◌, [], IfOk, None, OnErr, length};
ghost use Rattle.vdcp_operator.specs.Typed.{SaysOn, left, said_by, said_from, said_in, without_return};

use arrayvec::ArrayVec;
use std::fmt;
use std::io::{self, Read};
use vdcp_panel::number_in;

// A longer line is no call.
const MOST_BYTES: usize = 64;

#[derive(Clone, Copy, Debug, Default, PartialEq, Eq)]
pub enum Said {
    Take,
    Stop,
    /// Nothing new is to go to air after what plays.
    Hold,
    /// What is held back is to go to air again.
    Go,
    /// This event of the list, counted from 0, is to be left out.
    Skip(usize),
    /// The list is to go on with this event.
    Jump(usize),
    #[default]
    Other,
}

impl fmt::Display for Said {
    fn fmt<W: fmt::Write>(&self, f: &mut fmt::Formatter<W>) -> fmt::Result {
        match self {
            Said::Take => write!(f, "take"),
            Said::Stop => write!(f, "stop"),
            Said::Hold => write!(f, "hold"),
            Said::Go => write!(f, "go"),
            Said::Skip(event) => write!(f, "skip {event}"),
            Said::Jump(event) => write!(f, "jump {event}"),
            Said::Other => write!(f, "no call"),
        }
    }
}

#[derive(Clone, Copy)]
enum Got {
    Line(Said),
    /// No line is whole yet.
    Part,
    Nothing,
}

/// What is typed, a line each: the calls `take` and `stop`, `hold` and `go`, and `skip EVENT` and `jump EVENT`.
#[derive(Drop)]
pub struct Typed<I> {
    // None once it has ended.
    reader: Option<I>,
    line: ArrayVec<u8, MOST_BYTES>,
}

impl<I: Read + Drop> Typed<I> {
    pub fn new(reader: I) -> Self {
        Typed {
            reader: Some(reader),
            line: ArrayVec::new(),
        }
    }

    /// What the next line says, if it is whole; the input's end ends the last one. It reads 64 bytes at most, and only
    /// what has come.
    #[tactic(auto, using(crate::proofs::Typing::says_more, crate::proofs::Typing::says_nothing))]
    pub fn next(&mut self) -> Option<Said>
        ensures { SaysOn self.old.line.items (left I.remaining self.old.reader) (option_to_list result)
            self.new.line.items (left I.remaining self.new.reader) }
    {
        'bytes: for _ in 0..MOST_BYTES {
            match self.read_byte() {
                Got::Line(said) => return Some(said),
                Got::Part => {}
                Got::Nothing => return None,
            }
        }
        None
    }

    #[tactic(auto, using(crate::proofs::Typing::read_part))]
    fn read_byte(&mut self) -> Got
        ensures { SaysOn self.old.line.items (left I.remaining self.old.reader) (said_by result)
            self.new.line.items (left I.remaining self.new.reader) }
    {
        let Some(reader) = &mut self.reader else {
            return Got::Nothing;
        };
        match next_byte(reader) {
            Ok(None) => self.end(),
            Ok(Some(b'\n')) => Got::Line(self.take_line()),
            Ok(Some(byte)) => {
                self.hold(byte);
                Got::Part
            }
            // (none has come yet)
            Err(_) => Got::Nothing,
        }
    }

    fn hold(&mut self, byte: u8)
        ensures short { length self.old.line.items < 64 → self.new.line.items ≡ self.old.line.items ++ byte ∷ [] }
        ensures full { 64 ≤ length self.old.line.items → self.new.line.items ≡ self.old.line.items }
        ensures reader { self.new.reader ≡ self.old.reader }
    {
        let _ = self.line.try_push(byte);
    }

    fn take_line(&mut self) -> Said
        ensures said { result ≡ said_in self.old.line.items }
        ensures line { self.new.line.items ≡ [] }
        ensures reader { self.new.reader ≡ self.old.reader }
    {
        let said = said_in(self.line.as_slice());
        self.line.clear();
        said
    }

    fn end(&mut self) -> Got
        ensures said { said_by result ≡ said_from self.old.line.items [] }
        ensures line { self.new.line.items ≡ [] }
        ensures reader { self.new.reader ≡ None }
    {
        self.reader = None;
        if self.line.is_empty() {
            return Got::Nothing;
        }
        Got::Line(self.take_line())
    }
}

fn next_byte<I: Read>(reader: &mut I) -> io::Result<Option<u8>>
    ensures byte { IfOk result (λ byte. Consumes (I.remaining reader.old) (I.remaining reader.new) (option_to_list byte)) }
    ensures end { IfOk result (λ byte. byte ≡ None → IsAtEnd (I.remaining reader.new)) }
    ensures none { OnErr result (Keeps (I.remaining reader.old) (I.remaining reader.new)) }
{
    let mut byte = [0];
    match reader.read(&mut byte)? {
        0 => Ok(None),
        _ => Ok(Some(byte[0])),
    }
}

fn said_in(line: &[u8]) -> Said
    ensures { result ≡ said_in line.now }
{
    let words = without_return(line);
    if words == "take".as_bytes() {
        Said::Take
    } else if words == "stop".as_bytes() {
        Said::Stop
    } else if words == "hold".as_bytes() {
        Said::Hold
    } else if words == "go".as_bytes() {
        Said::Go
    } else if let Some(digits) = words.strip_prefix(b"skip ") {
        number_in(digits).map_or(Said::Other, Said::Skip)
    } else if let Some(digits) = words.strip_prefix(b"jump ") {
        number_in(digits).map_or(Said::Other, Said::Jump)
    } else {
        Said::Other
    }
}

fn without_return(line: &[u8]) -> &[u8]
    ensures { result.now ≡ without_return line.now }
{
    line.strip_suffix(b"\r").unwrap_or(line)
}

//! The log, and the wire that writes to it.
ghost use Rattle.std.specs.Prelude.{◌≡◌};

use crate::lines::Lines;
use crate::row::Row;
use std::cell::Cell;
use std::io::Write;
use std::{fmt, io};
use vdcp_drive::Hearing;
use vdcp_frame::{End, Ended, Got, Message, Reader};
use vdcp_text::{EndText, MeaningText, MessageText};
use vdcp_wire::{Came, PIECE, Wire, WireFault};

/// What is told for people while a channel is up, and the writer that gets it.
#[derive(Drop)]
pub enum Telling<L> {
    Nothing,
    /// Each fault of a line that a server outlives.
    Faults(L),
    /// Also each message, each connection, and each item that goes to air.
    All(L),
}

/// Where a line is listened to: at the automation's end commands go out, at the server's they come in.
#[derive(Clone, Copy, Debug, PartialEq, Eq)]
pub enum Side {
    Automation,
    Server,
}

/// A log, whose lines are for people, and a capture, whose rows `judge` reads. A writer that fails gets nothing more, and
/// nothing else comes of that: the channel goes on without its log.
#[derive(Drop)]
pub struct Log<L: io::Write> {
    // In cells, since a wire and what tells of its end share one log. None if nothing goes there, or no more.
    lines: Cell<Option<Lines<L>>>,
    rows: Cell<Option<Lines<L>>>,
    tells_all: bool,
    // Whether what passes on the line is read, for the log or the capture.
    reads: bool,
    pub(crate) side: Side,
}

impl<L: io::Write + Drop> Log<L> {
    pub fn new(telling: Telling<L>, capture: Option<L>, side: Side) -> Self {
        let (tells_all, lines) = match telling {
            Telling::Nothing => (false, None),
            Telling::Faults(writer) => (false, Some(Lines::new(writer))),
            Telling::All(writer) => (true, Some(Lines::new(writer))),
        };
        Log {
            reads: tells_all || capture.is_some(),
            lines: Cell::new(lines),
            rows: Cell::new(capture.map(|writer| Lines::new(writer))),
            tells_all,
            side,
        }
    }

    /// Adds a line, unless only faults are told.
    pub fn tell<T: fmt::Display>(&self, line: &T) {
        if self.tells_all {
            self.tell_fault(line);
        }
    }

    pub fn tell_fault<T: fmt::Display>(&self, line: &T) {
        write_to(&self.lines, &format_args!("{line}\n"));
    }

    pub(crate) fn capture<T: fmt::Display>(&self, part: &T) {
        write_to(&self.rows, part);
    }
}

fn write_to<L: io::Write + Drop, T: fmt::Display>(cell: &Cell<Option<Lines<L>>>, text: &T) {
    let Some(mut lines) = cell.replace(None) else {
        return;
    };
    if write!(lines, "{text}").is_ok() {
        let _ = cell.replace(Some(lines));
    }
}

#[derive(Clone, Copy)]
pub enum Direction {
    In,
    Out,
}

impl Direction {
    /// As a row of a capture names it.
    pub fn way(self, side: Side) -> &'static str {
        match (self, side) {
            (Direction::In, Side::Server) | (Direction::Out, Side::Automation) => "down",
            (Direction::In, Side::Automation) | (Direction::Out, Side::Server) => "up",
        }
    }
}

impl fmt::Display for Direction {
    fn fmt<W: fmt::Write>(&self, f: &mut fmt::Formatter<W>) -> fmt::Result {
        f.write_str(match self {
            Direction::In => "<-",
            Direction::Out => "->",
        })
    }
}

/// Tells what passes another wire: the log gets each message, and each end of a burst that isn't clean; a capture gets all
/// bytes, and each silence after which an automation waits no longer. If neither is told, nothing is read.
///
/// If it hears at once, reading begins anew after each message, so that a burst may have any length and what a silence
/// has torn is read on. A row of a capture is one message as it was heard, or all up to a silence that can't be read.
#[derive(Drop)]
pub struct Logged<'a, W: Wire, L: io::Write> {
    pub wire: W,
    log: &'a Log<L>,
    hearing: Hearing,
    // None after a fault, until a silence.
    came: Option<Reader>,
    row: Row,
    // Whether something went out after the last silence.
    awaits: bool,
}

impl<'a, W: Wire, L: io::Write + Drop> Logged<'a, W, L> {
    pub fn new(wire: W, log: &'a Log<L>, hearing: Hearing) -> Self
        ensures { result.wire ≡ wire }
    {
        Logged {
            wire,
            log,
            hearing,
            came: Some(Reader::new()),
            row: Row::new(Direction::In),
            awaits: false,
        }
    }

    fn reads_on(&self) -> bool {
        self.hearing == Hearing::AtOnce && self.came.is_some()
    }
}

impl<W: Wire, L: io::Write + Drop> Wire for Logged<'_, W, L> {
    ghost does = { λ act old new. W.does act old.wire new.wire };

    ghost told = { λ w. W.told w.wire };

    ghost failures = { λ w. W.failures w.wire };

    fn send(&mut self, bytes: &[u8]) -> Result<(), WireFault> {
        self.wire.send(bytes)?;
        if !self.log.reads {
            return Ok(());
        }
        self.awaits = true;
        self.row.part(self.log);
        let mut sent = Some(Reader::new());
        let mut row = Row::new(Direction::Out);
        tell_piece(self.log, Hearing::AtSilences, &mut sent, &mut row, bytes);
        tell_end(self.log, &mut sent, &mut row);
        Ok(())
    }

    fn listen(&mut self, buffer: &mut [u8; PIECE]) -> Result<Came, WireFault> {
        let came = self.wire.listen(buffer)?;
        if !self.log.reads {
            return Ok(came);
        }
        match came {
            Came::Bytes(n) => {
                let piece = &buffer[..n];
                tell_piece(self.log, self.hearing, &mut self.came, &mut self.row, piece)
            }
            Came::Silence => {
                if !self.reads_on() {
                    tell_end(self.log, &mut self.came, &mut self.row);
                }
                tell_silence(self.log, &mut self.awaits);
            }
            Came::Closed => tell_end(self.log, &mut self.came, &mut self.row),
        }
        Ok(came)
    }

    fn drop_waiting(&mut self) -> Result<(), WireFault> {
        self.wire.drop_waiting()
    }

    ghost fails_once = { λ w. W.fails_once w.wire };

    ghost tells = { λ act old new. W.tells act old.wire new.wire };
}

fn tell_piece<L: io::Write + Drop>(
    log: &Log<L>,
    hearing: Hearing,
    reader: &mut Option<Reader>,
    row: &mut Row,
    piece: &[u8],
) {
    let mut rest = piece;
    'piece: while let Some(begun) = reader {
        let before = rest;
        match begun.next(&mut rest) {
            Got::Message(message) => {
                tell_message(log, row.direction, message);
                row.add(log, &before[..before.len() - rest.len()]);
                row.end(log);
                if let Hearing::AtOnce = hearing {
                    begun.silence();
                }
            }
            Got::Fault(fault, place) => {
                tell_burst_fault(log, row.direction, End::Fault(fault, place));
                row.add(log, before);
                *reader = None;
                return;
            }
            Got::More => {
                row.add(log, before);
                return;
            }
        }
    }
    row.add(log, rest);
}

fn tell_message<L: io::Write + Drop>(log: &Log<L>, direction: Direction, message: Message<'_>) {
    let text = MessageText(message);
    let meaning = MeaningText(message);
    log.tell(&format_args!("{direction} {text}{meaning}"));
}

fn tell_end<L: io::Write + Drop>(log: &Log<L>, reader: &mut Option<Reader>, row: &mut Row) {
    let ended = match reader {
        Some(begun) => begun.silence(),
        None => Ended::AfterFault,
    };
    if let Ended::Cut(count) = ended {
        tell_burst_fault(log, row.direction, End::Cut(count));
    }
    *reader = Some(Reader::new());
    row.end(log);
}

fn tell_burst_fault<L: io::Write + Drop>(log: &Log<L>, direction: Direction, end: End) {
    let end = EndText(end);
    log.tell(&format_args!("{direction} {end}"));
}

// A server's silences don't say that an automation waits no longer.
fn tell_silence<L: io::Write + Drop>(log: &Log<L>, awaits: &mut bool) {
    if *awaits && log.side == Side::Automation {
        log.capture(&",up,\n");
    }
    *awaits = false;
}

//! What a run is made with, and what shows it.
ghost use Rattle.std.specs.Prelude.{◌≡◌};
ghost use Rattle.vdcp_run.specs.Run.{leaves_out, name_of};

use vdcp_auto::Mode;
use vdcp_drive::Hearing;
use vdcp_log::Telling;
use vdcp_value::Rate;

#[derive(Clone, Copy)]
pub struct RunSettings<'a> {
    /// The server's unit, 0 to 15.
    pub unit: u8,
    /// The server's port, 0 to 255.
    pub port: u8,
    /// As many unanswered exchanges in a row make the controller give up, 1 to 1,000.
    pub limit: u32,
    pub mode: Mode,
    /// The port is asked first, and the list is begun only if the port is empty.
    pub ask: bool,
    pub rate: Rate,
    /// A silence of this length means no answer: 1 to 60,000 ms, and longer than the server waits for a command to end.
    pub silence: u32,
    pub hearing: Hearing,
    /// The most turns, that is listens and calls, over all connections.
    pub listens: u32,
    /// The event that a new controller begins with; without one it is event 0.
    pub from: Option<usize>,
    /// An event that is wanted, though a call of the journal leaves it out: the one that a person begins with.
    pub wanted: Option<usize>,
    /// The name of the as-run file.
    pub asrun: Option<&'a str>,
    pub journal: Option<RunJournal<'a>>,
    /// A run with a journal connects again when its line ends it, and goes on from the journal.
    pub stay: Option<Staying>,
}

impl RunSettings<'_> {
    /// Whether a run begins behind an event that it leaves out, after the last one of its journal.
    pub fn leaves_out(self) -> bool
        ensures { result ≡ leaves_out self.entry.journal self.entry.from }
    {
        match self.journal {
            Some(RunJournal::Again(_) | RunJournal::Left(_)) => self.from.is_some(),
            Some(RunJournal::New(_) | RunJournal::Older(_)) | None => false,
        }
    }
}

/// How a run stays.
#[derive(Clone, Copy)]
pub struct Staying {
    /// It leaves out an event whose clip the server doesn't have, or, in plain mode, whose cue it refuses.
    pub skip: bool,
    pub unsure: Unsure,
    /// For how many seconds it tries while nothing is heard of the server; without a number it tries for ever.
    pub patience: Option<u32>,
}

/// What becomes of an event that may have aired before the server lost the port.
#[derive(Clone, Copy, PartialEq, Eq)]
pub enum Unsure {
    LeaveOut,
    /// It is sent again, so it may air twice.
    Again,
    /// The run ends there.
    Stop,
}

/// The journal of a run, by the name of its file.
#[derive(Clone, Copy)]
pub enum RunJournal<'a> {
    New(&'a str),
    /// Its last run goes on.
    Older(&'a str),
    /// A new controller begins after its last run, which was lost or can't go on.
    Again(&'a str),
    /// A new controller begins after its last run, which the operator left.
    Left(&'a str),
}

impl<'a> RunJournal<'a> {
    pub fn name(self) -> &'a str
        ensures { result ≡ name_of self.entry }
    {
        match self {
            RunJournal::New(name) => name,
            RunJournal::Older(name) => name,
            RunJournal::Again(name) => name,
            RunJournal::Left(name) => name,
        }
    }
}

/// The writers that show a run. One that fails gets no more, and the run goes on.
#[derive(Drop)]
pub struct Showing<V> {
    /// Gets the progress line, which is drawn again and again.
    pub terminal: Option<V>,
    /// Gets a line for each message that came (`<-`) and went out (`->`), if all is told.
    pub telling: Telling<V>,
    /// Gets rows of what came and went out, as `judge` reads them.
    pub capture: Option<V>,
}

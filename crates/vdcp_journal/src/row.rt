//! The heading, the rows and the notes of a journal.
use crate::moment::Moment;
use vdcp_auto::{Heard, ListCall, Mode, Outcome};
use vdcp_words::Command;

/// What a journal belongs to: a run goes on only from one with an equal heading.
#[derive(Clone, Copy, Debug, PartialEq, Eq)]
pub struct Heading {
    /// The SHA-256 digest of the list's events: see `digest_of`.
    pub digest: [u8; 32],
    pub mode: Mode,
    /// The server's unit address, 0 to 15.
    pub unit: u8,
    pub port: u8,
    /// How many unanswered exchanges in a row end the controller as Lost.
    pub limit: u32,
}

#[derive(Clone, Copy, Debug, PartialEq, Eq)]
pub struct Row {
    pub time: Moment,
    pub note: Note,
}

#[derive(Clone, Copy, Debug, PartialEq, Eq)]
pub enum Note {
    Sent(Command),
    /// This came and ended the exchange.
    Heard(Heard),
    /// Nothing came in time, which ended the exchange.
    Silence,
    /// The operator wanted the next event while the last one still played.
    Take,
    Stop,
    /// What the operator said of the list.
    List(ListCall),
    End(Outcome),
    /// A new run begins with this event of the list, counted from 0.
    From(usize),
    /// A new run begins so, and the operator left the one before it: that has a row for each command that went out.
    Left(usize),
}

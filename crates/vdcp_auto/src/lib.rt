//! The automation's controller: it plays a list of items through one port of a server, one command at a time. It
//! reports an item as aired only once the answers show it: in plain mode an ACK to its PLAY, or a status after an
//! unanswered PLAY; in confirm mode such a status alone.
//!
//! The controller does no input or output. The caller sends what `tick` gives, and hands in what came by `hear`, or by
//! `timeout` that nothing did, until `outcome` answers. `rehearse` runs a controller over a list of inputs.
//!
//! A `Judge` holds the exchanges of any log against the rule book, one after another, and its memory stays the same.
//! `captured_in` reads a captured line, and `exchange_ended` gives the exchanges that it shows.
#![tactic(auto)]

mod burst;
mod capture;
mod controller;
mod exchange;
mod judge;
mod keeping;
pub mod laws;
mod list_call;
mod meaning;
mod notes;
mod outcome;
mod phase;
mod rehearsal;
mod snapshot;
mod source;

pub use burst::{Way, captured_as, captured_in};
pub use capture::{Captured, exchange_ended};
pub use controller::Controller;
pub use exchange::{Exchange, Heard, Input};
pub use judge::{Judge, LastCue, Ruling};
pub use keeping::first_forbidden;
pub use list_call::ListCall;
pub use notes::Notes;
pub use outcome::Outcome;
pub use phase::{Mode, Phase};
pub use rehearsal::{rehearse, rehearse_confirming};
pub use snapshot::{Snapshot, Standing};
pub use source::Source;

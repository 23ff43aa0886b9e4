//! Logs of a live channel, by writers that never block either end.
//!
//! A `Log` gets a line of each message that passes a `Logged` wire, and those that it is told; a capture gets rows of bytes.
//!
//! Files, in reading order: `log`, `row`, `lines`, `screen`.
#![tactic(auto)]

mod lines;
mod log;
mod row;
mod screen;

pub use lines::Lines;
pub use log::{Log, Logged, Side, Telling};
pub use screen::{Readiness, Screen, write_at_once};

//! The subcommands that touch no line: `check` holds a playlist against a catalogue, `vectors` tests each row of a file
//! of bursts and their readings, `judge` holds a captured line against the rule book, and `sim` runs a script of a line.
//!
//! Each is a function `do_NAME` over any readers and writers, which gives the exit status.
#![tactic(auto)]

mod check;
mod judge;
mod sim;
mod vectors;

pub use check::do_check;
pub use judge::{JudgeSettings, do_judge};
pub use sim::{SimSettings, do_sim};
pub use vectors::do_vectors;

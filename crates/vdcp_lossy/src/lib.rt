//! The subcommand `lossy` (`do_lossy`): a line between an automation and a server, over TCP, that loses, copies, cuts,
//! damages and forges bursts.
//!
//! Files, in reading order: `lossy`, `dice`, `doing`, `session`, `carry`, `text`, `tally`.
#![tactic(auto)]

mod carry;
mod dice;
mod doing;
mod lossy;
mod session;
mod tally;
mod text;

pub use doing::Chances;
pub use lossy::{LossySettings, do_lossy};

//! The subcommand `run` (`do_run`): the automation's end of a playout channel over TCP.
//!
//! Files, in reading order: `settings`, `run`, `begin`, `staying`, `connecting`, `session`, `stretch`, `playing`, `console`,
//! `stalling`, `asking`, `lack`, `run_end`, `advice`, `asrun`, `saved`, `place`, `in_list`, `before`, `laws`.
#![tactic(auto)]

mod advice;
mod asking;
mod asrun;
mod before;
mod begin;
mod connecting;
mod console;
mod in_list;
mod lack;
pub mod laws;
mod place;
mod playing;
mod run;
mod run_end;
mod saved;
mod session;
mod settings;
mod stalling;
mod staying;
mod stretch;

pub use advice::{Advice, Next, Reason};
pub use run::do_run;
pub use settings::{RunJournal, RunSettings, Showing, Staying, Unsure};

//! The command line: each subcommand's words, the numbers and rates that they give, and the files and streams below.
#![tactic(auto)]

mod args;
mod file;
pub mod number;
mod output;
pub mod rate;
mod system;

pub use args::command;
pub use file::open_file;
pub use output::{Output, Resumable, capture_of};
pub use system::System;

//! The subcommands but `run`: from the words of the command line to the calls of their libraries.
#![tactic(auto)]

mod settings;
mod subcommands;

pub use settings::mode_of;
pub use subcommands::run_named;

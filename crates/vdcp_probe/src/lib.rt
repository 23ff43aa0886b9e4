//! The subcommands `probe` and `ask` (`do_probe`, `do_ask`): does a server's port keep the port's table, on which as-run
//! lists rest, and does it have the clips of a list?
//!
//! A `Row` of the table brings the port to a `Start` and takes `Step`s. A `Follower`, a port of `vdcp_port`, gets the same
//! bursts, and `hold_answer` holds what comes against what it may answer, whatever got done or ended before the burst.
//!
//! Files, in reading order: `row`, `table`, `naming`, `asking`, `follower`, `walk`, `reading`, `report`, `settings`,
//! `probe`, `inventory`.
#![tactic(auto)]

mod asking;
mod follower;
mod inventory;
mod naming;
mod probe;
mod reading;
mod report;
mod row;
mod settings;
mod table;
mod walk;

pub use follower::Follower;
pub use inventory::{AskSettings, do_ask};
pub use probe::do_probe;
pub use report::{Cause, Difference};
pub use settings::{Only, ProbeSettings};
pub use walk::hold_answer;

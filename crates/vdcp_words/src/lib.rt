//! Commands and replies of the Video Disk Communications Protocol, as far as this profile has them.
//!
//! ```text
//! send(command.encode(unit).as_slice());
//! match Reply::read(&message) { Ok(reply) => .., Err(fault) => the message is no reply of this profile }
//! ```
//! `to_message` gives a message of `vdcp_frame` in place of its bytes. The caller compares the unit that a message
//! names: reading doesn't look at it. Nothing here allocates.
//! Files, in reading order: `command`, `reply`, `data`, `room`, `encoding`, `text`, `state`, `fault`, `laws`.
#![tactic(auto)]

mod command;
mod data;
mod encoding;
mod fault;
pub mod laws;
mod reply;
mod room;
pub mod state;
mod text;

pub use command::Command;
pub use encoding::LONGEST;
pub use fault::WordFault;
pub use reply::Reply;

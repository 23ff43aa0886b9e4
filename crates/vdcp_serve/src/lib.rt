//! The subcommand `serve` (`do_serve`): the server's end of a playout channel over TCP.
//!
//! Files, in reading order: `serve`, `stay`, `entrance`, `hooks`, `timing`, `frame_clock`, `panel`, `page`.
#![tactic(auto)]

mod entrance;
mod frame_clock;
mod hooks;
mod page;
mod panel;
mod serve;
mod stay;
mod timing;

pub use hooks::Hooks;
pub use serve::{ServeSettings, do_serve};

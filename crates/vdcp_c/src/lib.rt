//! The libraries as a C program calls them: `include/vdcp.h` says how.
#![tactic(auto)]

mod airing;
mod clip;
mod clips;
mod code;
mod command;
mod controller;
mod item;
mod judging;
mod list;
mod message;
mod reader;
mod reply;
mod room;
mod row;
mod server;

pub use airing::vdcp_airing;
pub use clip::vdcp_clip;
pub use command::{
    vdcp_command, vdcp_command_bytes, vdcp_command_of_message, vdcp_command_of_text,
    vdcp_command_text,
};
pub use controller::{
    vdcp_controller, vdcp_controller_hear, vdcp_controller_new, vdcp_controller_stop,
    vdcp_controller_take, vdcp_controller_tick, vdcp_controller_timeout,
};
pub use item::vdcp_item;
pub use judging::{
    vdcp_judging, vdcp_judging_add, vdcp_judging_add_silence, vdcp_judging_allows, vdcp_judging_new,
};
pub use message::{vdcp_message, vdcp_message_bytes};
pub use reader::{vdcp_reader, vdcp_reader_feed, vdcp_reader_silence};
pub use reply::{vdcp_reply, vdcp_reply_bytes, vdcp_reply_of_message, vdcp_reply_text};
pub use server::{
    vdcp_server, vdcp_server_answer, vdcp_server_answer_burst, vdcp_server_frame, vdcp_server_new,
    vdcp_server_state, vdcp_silence_answer,
};

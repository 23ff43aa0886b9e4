//! The line between the two ends of one playout channel, which may lose, copy and damage what it carries.
//!
//! A `World` is a controller, a port and the line between them. The caller says what happens, and sees what came of it:
//!
//! ```text
//! let mut world = World::with_clock(alloc, source, catalogue, unit, port, limit, cue_frames);
//! world.run(&events)?;
//! world.aired(), world.reported(), world.log(), world.outcome()
//! ```
//!
//! An event that can't happen changes nothing. `read_script` makes events of a text. The `laws` are also of late lines.
#![tactic(auto)]

mod burst;
mod damage;
mod event;
mod heard;
pub mod laws;
mod link;
mod script;
mod world;

pub use burst::Burst;
pub use damage::can_become;
pub use event::Event;
pub use script::{ScriptFault, read_script};
pub use world::World;

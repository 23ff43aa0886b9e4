//! The values that commands and replies carry: clip IDs, time codes at a rate, and items (clips, or parts of them).
//!
//! ```text
//! let id = ClipId::parse("CLIP0001")?;
//! let length = Timecode::parse(Rate::F25, "00:00:10:00")?;
//! let mut text = ArrayString::new();
//! id.show(&mut text);
//! ```
//! `parse` and `from_bcd` check what they read, once, and name the first fault. Nothing here takes memory.
//! Files, in reading order: `clip_id`, `id_text`, `rate`, `label`, `timecode`, `part`, `faults`, `laws`.
#![tactic(auto)]

mod clip_id;
mod faults;
mod id_text;
mod label;
pub mod laws;
mod part;
mod rate;
mod timecode;

pub use clip_id::ClipId;
pub use faults::{Field, IdFault, RowFault, TcFault};
pub use part::{Item, Part};
pub use rate::Rate;
pub use timecode::Timecode;

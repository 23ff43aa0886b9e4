//! Messages of the Video Disk Communications Protocol, in its unextended form. Nothing here allocates.
//!
//! A burst is what comes in one direction from one silence to the next. `Messages` walks along one in memory:
//! ```text
//! let mut messages = Messages::of(burst);
//! while let Some(message) = messages.next() { .. }
//! match messages.end() { End::Clean | End::Cut(_) | End::Fault(_, _) => .. }
//! ```
//! A `Reader` takes one in pieces, and holds what has come of a message. At each piece, and then at the silence:
//! ```text
//! let mut rest = piece;
//! loop { match reader.next(&mut rest) { Got::More => break, Got::Message(m) => .., Got::Fault(fault, place) => .. } }
//! reader.silence()
//! ```
//! `read_at` and `feed` are single steps, for a caller that keeps its place; `can_hold`, `fill` and `read_front` are
//! for one that keeps the held bytes, too. `write` appends a message's bytes to a buffer.
#![tactic(auto)]

mod burst;
mod front;
mod got;
mod head;
pub mod laws;
mod message;
mod reader;
mod spelling;
mod walk;

pub use burst::{LIMIT, Step, read_at};
pub use front::{can_hold, fill, read_front};
pub use got::{Ended, Got};
pub use message::{Fault, Message};
pub use reader::Reader;
pub use spelling::{Full, write};
pub use walk::{End, Messages, whole_messages};

//! A wire carries bytes to the other end of a line and back, and tells bursts from silences.
//!
//! ```text
//! let stream = accept_one(rt, address_of(text)?, out)?;
//! let mut wire = StreamWire::new(stream, silence)?;
//! wire.drop_waiting()?;
//! wire.send(bytes)?;
//! let mut buffer = [0; PIECE];
//! match wire.listen(&mut buffer)? { Came::Bytes(n) => .., Came::Silence => .., Came::Closed => .. }
//! ```
//! `with_limit` makes a wire on which each answer ends at last, and a `ScriptWire` is one in memory.
//! Files, in reading order: `wire`, `script`, `stopwatch`, `answering`, `stream`, `duplex`, `address`, `accept`.
#![tactic(auto)]

mod accept;
mod address;
mod answering;
mod duplex;
mod script;
mod stopwatch;
mod stream;
mod wire;

pub use accept::{AcceptFault, accept_one, listen_at};
pub use address::{AddressFault, address_of};
pub use duplex::Duplex;
pub use script::{Entry, ScriptWire};
pub use stopwatch::Stopwatch;
pub use stream::{StreamWire, Unclocked, Waits};
pub use wire::{Came, PIECE, Wire, WireFault};

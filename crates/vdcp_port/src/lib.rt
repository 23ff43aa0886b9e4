//! The server's port of one playout channel, from bytes to bytes.
//!
//! ```text
//! let mut port = Port::with_clock(catalogue, unit, number, cue_frames);
//! loop {
//!     at a burst: port.burst_answer(burst, &mut out, &mut aired)?, then send what `out` has gained
//!     at a frame: let (is_done, has_ended) = port.frame();
//! }
//! ```
//! A `Catalogue` says what clips there are. Only `burst_answer` takes memory; `answer_into` answers a burst into an
//! array. A caller that has single messages passes them to `answer`, and at the silence sends what `reply_at_end`
//! gives.
//! Files, in reading order: `port`, `burst`, `access`, `airing`, `asked`, `catalogue`, `sink`, `kept`, `laws`.
#![tactic(auto)]

mod access;
mod airing;
mod asked;
mod burst;
mod catalogue;
mod kept;
pub mod laws;
mod port;
mod sink;

pub use access::Access;
pub use airing::Clip;
pub use burst::reply_at_end;
pub use catalogue::Catalogue;
pub use kept::Kept;
pub use port::Port;

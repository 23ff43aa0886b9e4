//! The operator of a run: typed calls, calls from a page, a start by the clock, and the progress line.
//!
//! The hooks of a driver call `Hand` before each listen, also without an operator: it reads what was typed (`Typed`, by
//! `Keys`, which never wait), answers requests for the page (`RunPage`), and waits until the next command may go out. What is
//! said, as a line or on the page, waits until the hooks have kept it, and acts then (`heed_call`). A call may leave out events
//! of a run that stays (`skip`, `jump`): `next_kept` says with which event the list goes on. From `hold` to `go` nothing new
//! goes to air: `holds_back` says what is held back.
//!
//! Files, in reading order: `keys`, `typed`, `left_out`, `ahead`, `on_list`, `waiting`, `channel`, `seen`, `shown`, `page`,
//! `start`, `polling`, `hand`, `progress`.
#![tactic(auto)]

mod ahead;
mod channel;
mod hand;
mod keys;
mod left_out;
mod on_list;
mod page;
mod polling;
mod progress;
mod seen;
mod shown;
mod start;
mod typed;
mod waiting;

pub use channel::is_channel_name;
pub use hand::{Ender, Hand};
pub use keys::Keys;
pub use left_out::LeftOut;
pub use on_list::OnList;
pub use progress::Progress;
pub use seen::{Ending, EventBefore, EventSeen, Reason, Record, RunNames, RunSeen};
pub use shown::{ROWS_BEFORE, RunPage};
pub use start::{StartFault, start_of};
pub use typed::{Said, Typed};

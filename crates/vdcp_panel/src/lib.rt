//! A page in a browser over a loop that runs for something else: it shows a state, follows it, and may take calls.
//!
//! The loop calls `Panel::serve_some` at any moment, with what is to be seen then. That does what can be done without
//! waiting, bounded in each call: no request can hold the loop up.
//!
//! ```text
//! let mut panel = Panel::bind(&rt, address)?; // or `open_panel`, which tells where the page is
//! loop {
//!     ..
//!     panel.serve_some(&rt, &view, &mut calls);
//!     // `calls` are what was asked, in order
//! }
//! ```
//!
//! Files, in reading order: `view`, `call`, `number`, `gate`, `wish`, `desk`, `peer`, `peers`, `panel`, `open`; `page` for all pages.
#![tactic(auto)]

mod call;
mod desk;
mod gate;
mod number;
mod open;
mod page;
mod panel;
mod peer;
mod peers;
mod view;
mod wish;

pub use call::{Call, Calls, MOST_CALLS};
pub use desk::Desk;
pub use gate::{Gate, Name};
pub use number::number_in;
pub use open::open_panel;
pub use panel::{Names, Panel};
pub use peer::Peer;
pub use peers::{MOST_PEERS, Peers};
pub use view::{View, milliseconds};

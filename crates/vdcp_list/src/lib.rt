//! Playlists, catalogues and as-run lists: CSV files of clips, read and written.
//!
//! `read_list` reads a playlist into a `List`, the controller's source; `read_catalogue` reads a catalogue into a
//! `Table`, the port's clips. A file has 10,000 rows at most. `Slots` is a catalogue of fixed room, which takes no
//! memory, and `Rest` a source that begins with a later event of another.
//!
//! `write_asrun` writes which events aired, and `write_events` those from a later one on; `write_timed_heading` and
//! `write_timed_events` write when, too. `rows_in` and `next_row` read any other file of this kind row by row.
#![tactic(auto)]

mod asrun;
mod bounded;
mod catalogue;
mod faults;
mod fields;
pub mod laws;
mod list;
mod playlist;
mod rest;
mod rows;
mod slots;
mod table;
mod timed;

pub use asrun::{write_asrun, write_events};
pub use bounded::Bounded;
pub use catalogue::read_catalogue;
pub use faults::{ListFault, SlotFault, WriteFault};
pub use list::List;
pub use playlist::read_list;
pub use rest::Rest;
pub use rows::{MAX_ROWS, next_row, rows_in};
pub use slots::Slots;
pub use table::Table;
pub use timed::{Timed, write_timed_events, write_timed_heading};

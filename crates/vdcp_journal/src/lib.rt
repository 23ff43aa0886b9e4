//! A journal: a CSV file of what an automation sent and heard and its operator wanted, row by row, so that one that was
//! killed goes on where it was.
//!
//! `write_heading` and `write_row` append the text of a `Heading` and of a `Row`, which is a `Note` at a `Moment`.
//! `JournalRows` reads the rows again; `WholeLines` below it leaves out a last row that was torn.
//!
//! A journal may hold several runs; `begins_at` says where one begins. Of a run's rows `RunSoFar` makes the controller
//! anew, `AiringsSoFar` finds when each event aired, and `mended` gives the notes that a killed run lacks.
//!
//! Files, in reading order: `moment`, `digest`, `row`, `fields`, `texts`, `write`, `whole`, `size`, `read`, `faults`,
//! `replay`, `losses`, `mending`, `airings`, `runs`, `laws`.
#![tactic(auto)]

mod airings;
mod digest;
mod faults;
mod fields;
pub mod laws;
mod losses;
mod mending;
mod moment;
mod read;
mod replay;
mod row;
mod runs;
mod size;
mod texts;
mod whole;
mod write;

pub use airings::{Airing, Airings, AiringsSoFar};
pub use digest::digest_of;
pub use faults::{JournalReadFault, JournalRowFault, ResumeFault};
pub use mending::{heard_after, is_end, mended};
pub use moment::Moment;
pub use read::JournalRows;
pub use replay::{Resumed, RunSoFar};
pub use row::{Heading, Note, Row};
pub use runs::{begins_at, leaves};
pub use size::size_of_lines;
pub use whole::WholeLines;
pub use write::{write_heading, write_row};

//! Named files: read as lists, as catalogues or line by line, over any readers and writers.
//!
//! A `NamedFile` gives its list or its catalogue, `lines_in` and `next_line` its lines. `write_findings` says which
//! events can't be played with a catalogue's clips. `keep_older` keeps a file that is about to be written anew.
//! Files, in reading order: `lines`, `named_file`, `playable`, `beside`.
#![tactic(auto)]

mod beside;
mod lines;
mod named_file;
mod playable;

pub use beside::{is_same_file, keep_older};
pub use lines::{FileLines, lines_in, next_line};
pub use named_file::{NamedFile, file_failure};
pub use playable::write_findings;

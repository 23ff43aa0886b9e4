//! Where a journal's runs begin.
ghost use Rattle.std.specs.Prelude.{◌≡◌};
ghost use Rattle.vdcp_journal.specs.Runs.{begins_at, leaves};

use crate::row::Note;

/// The event, counted from 0, with which this note begins a run, if it begins one.
pub fn begins_at(note: &Note) -> Option<usize>
    ensures { result ≡ begins_at note.now }
{
    match note {
        Note::From(event) | Note::Left(event) => Some(*event),
        _ => None,
    }
}

/// Whether the operator left the run that ends before this note.
pub fn leaves(note: &Note) -> bool
    ensures { result ≡ leaves note.now }
{
    matches!(note, Note::Left(_))
}

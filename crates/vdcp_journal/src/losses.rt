//! The limit under which a lost run goes on.
ghost use Rattle.std.specs.Prelude.{◌≡◌, ◌≤◌};
ghost use Rattle.vdcp_journal.specs.Resume.{is_loss, limit_after};

use crate::row::Note;
use vdcp_auto::Outcome;

// Each loss allows as many more unanswered exchanges in a row as the first limit, up to 1,000 in all.
pub(crate) fn limit_after(limit: u32, lost: u32) -> u32
    requires some { 1 ≤ limit }
    requires few { limit ≤ 1000 }
    ensures limit { result ≡ limit_after limit lost }
    ensures some { 1 ≤ result }
    ensures few { result ≤ 1000 }
{
    if lost >= 1000 {
        return 1000;
    }
    let raised = limit * (lost + 1);
    if raised > 1000 { 1000 } else { raised }
}

pub(crate) fn is_loss(note: &Note) -> bool
    ensures { result ≡ is_loss note.now }
{
    matches!(note, Note::End(Outcome::Lost))
}

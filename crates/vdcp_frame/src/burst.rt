//! One step of a walk along a burst.
ghost use Rattle.std.specs.Prelude.{◌≡◌, ◌<◌, ◌≤◌, ◌++◌, ◌∷◌, [], List, length, take, drop, slice_range};
ghost use Rattle.vdcp_frame.specs.Message.{Content, Spells};
ghost use Rattle.vdcp_frame.specs.Reading.{SpellsAll, AreMessages, burst_limit, Reads};
ghost use Rattle.vdcp_frame.specs.Step.{IfMessage, IfEnd};

use crate::head::Head;
use crate::message::{Fault, Message};

/// How many bytes of a burst are read at most (this profile). A longer one with no fault among them ends in `Long`.
pub const LIMIT: usize = 4096;

#[derive(Clone, Copy, Debug, PartialEq, Eq)]
pub enum Step<'a> {
    /// A message, and the `from` of the next step.
    Message(Message<'a>, usize),
    Clean,
    /// Inside a message, of which this many bytes came.
    Cut(usize),
    /// A fault, and the place from 1 of the byte that shows it: a message's first, the count, the checksum or byte 4,097.
    Fault(Fault, usize),
}

/// Reads what follows the first `from` bytes of a burst, which have to be whole messages: `from` is 0, or came with the
/// message before. It gives a message, or how the burst ends.
pub fn read_at(burst: &[u8], from: usize) -> Step<'_>
    requires limit { from ≤ LIMIT }
    requires within { from ≤ length burst.now }
    requires whole { AreMessages (take from burst.now) }

    ensures message { IfMessage result (λ m next. Spells m (slice_range burst.now from next)) }
    ensures further { IfMessage result (λ m next. (from < next) × (next ≤ LIMIT) × (next ≤ length burst.now)) }
    ensures next { IfMessage result (λ m next. (ms : List Content) →
        SpellsAll ms (take from burst.now) → SpellsAll (ms ++ m ∷ []) (take next burst.now)) }
    ensures end { IfEnd result (λ end. (ms : List Content) →
        SpellsAll ms (take from burst.now) → Reads burst.now ms end) }
{
    match Head::at(left(burst, from)) {
        Head::Found(message, size) => Step::Message(message, from + size),
        Head::Wrong(fault, size) => Step::Fault(fault, from + size),
        Head::Part(_) if burst.len() > LIMIT => Step::Fault(Fault::Long, LIMIT + 1),
        Head::Part(_) if burst.len() == from => Step::Clean,
        Head::Part(_) => Step::Cut(burst.len() - from),
    }
}

fn left(burst: &[u8], from: usize) -> &[u8]
    requires limit { from ≤ LIMIT }
    requires within { from ≤ length burst.now }
    ensures { result.now ≡ drop from (take burst_limit burst.now) }
{
    &burst[from..burst.len().min(LIMIT)]
}

//! How controllers end.

/// How a controller ended. Events are numbered from 0.
#[derive(Clone, Copy, Debug, PartialEq, Eq)]
pub enum Outcome {
    /// Every event is settled, and then CLOSE was answered, or in confirm mode timed out.
    Done,
    /// The operator stopped it: STOP was sent, and then CLOSE.
    Stopped,
    /// `limit` exchanges in a row were unanswered; in confirm mode as many requests in a row.
    Lost,
    /// OPEN was denied or refused, or SELECT was refused.
    Denied,
    /// The server doesn't have this event's clip.
    Missing(usize),
    /// NAK 01h came for a command of this event, or in Drain, whose number is one past the last event. In confirm mode:
    /// `limit` statuses showed nothing cued, though this event was.
    Refused(usize),
    /// The active clip isn't this event's.
    Foreign(usize),
    /// Nothing is cued though this event's cue was answered; or in Drain, one past the last event, something is.
    Strange(usize),
}

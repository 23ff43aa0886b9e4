//! Which events of a list its operator leaves out.
ghost use Rattle.std.specs.List.{find};
ghost use Rattle.std.specs.Prelude.{◌≡◌, [], IsTrue, option_map};
ghost use Rattle.vdcp_operator.specs.LeftOut.{Adds, IsNextKept, adding, fault_at, fixed_fault, has, has_no_other, has_room, is_left_out, joined, jump_at, jump_fault_at, last_fault, past_fault, room_fault, skip_at, skip_fault_at, spans_with, touches, up_to};

use crate::ahead::{Ahead, Cued};
use arrayvec::ArrayVec;
use thiserror::Error;

// How many spans of events can be left out. Those that touch are one.
const MOST_SPANS: usize = 512;

/// Events of a list, by their numbers from 0: from the first up to the end, which isn't one of them.
#[derive(Clone, Copy, Debug, Default, PartialEq, Eq)]
pub struct Span {
    pub first: usize,
    pub end: usize,
}

impl Span {
    fn has(self, event: usize) -> bool
        ensures { result ≡ has self event }
    {
        self.first <= event && event < self.end
    }

    fn up_to(self, event: usize) -> Span
        ensures { result ≡ up_to self event }
    {
        Span {
            first: self.first,
            end: event,
        }
    }

    // Whether no event stands between them.
    fn touches(self, other: Span) -> bool
        ensures { result ≡ touches self other }
    {
        self.first <= other.end && other.first <= self.end
    }

    fn joined(self, other: Span) -> Span
        ensures { result ≡ joined self other }
    {
        Span {
            first: self.first.min(other.first),
            end: self.end.max(other.end),
        }
    }
}

/// Why a call isn't obeyed: nothing has changed.
#[derive(Clone, Copy, Debug, PartialEq, Eq, Error)]
pub enum CallFault {
    #[error("no call: take, stop, hold, go, skip EVENT, jump EVENT")]
    NoCall,
    #[error("skip and jump need --stay")]
    NoStay,
    #[error("there is no event {0}")]
    NoEvent(usize),
    #[error("event {0} can't be left out any more")]
    Past(usize),
    /// In confirm mode, also if it comes before the one to which a jump leads.
    #[error("event {0} is cued: with --confirm it can't be left out any more")]
    Cued(usize),
    #[error("event {0} can't be left out: no other event is left to be cued in its place")]
    Last(usize),
    #[error("event {0} is left out already")]
    LeftOut(usize),
    #[error("no more events can be left out")]
    Full,
    #[error("no more calls can wait")]
    Crowded,
}

/// The events that are left out of a list: one by one (`skip`), or all before another one (`jump`). With `next_kept` it goes
/// on.
#[derive(Drop)]
pub struct LeftOut {
    stays: bool,
    spans: ArrayVec<Span, MOST_SPANS>,
}

impl LeftOut {
    /// Only of a run that stays events may be left out.
    pub fn new(stays: bool) -> Self
        ensures stays { result.stays ≡ stays }
        ensures none { result.spans.items ≡ [] }
    {
        LeftOut {
            stays,
            spans: ArrayVec::new(),
        }
    }

    pub fn stays(&self) -> bool
        ensures { result ≡ self.now.stays }
    {
        self.stays
    }

    /// The first event from this one on that isn't left out.
    pub fn next_kept(&self, event: usize) -> usize
        ensures { IsNextKept self.now event result }
    {
        let mut kept = event;
        while let Some(span) = with_event(self.spans.as_slice(), kept) {
            kept = span.end;
        }
        kept
    }

    /// What is left out with this event, if it is one of those ahead, and not the last one that could replace what is cued.
    pub fn skip(&self, event: usize, ahead: Ahead) -> Result<Span, CallFault>
        ensures { result ≡ skip_at self.now ahead event }
    {
        if let Some(fault) = self.skip_fault_at(ahead, event) {
            return Err(fault);
        }
        Ok(Span {
            first: event,
            end: event + 1,
        })
    }

    /// The events ahead up to this one, if it is one of these, and nothing is cued that would air before it.
    pub fn jump(&self, event: usize, ahead: Ahead) -> Result<Span, CallFault>
        ensures { result ≡ jump_at self.now ahead event }
    {
        if let Some(fault) = self.jump_fault_at(ahead, event) {
            return Err(fault);
        }
        Ok(ahead.events.up_to(event))
    }

    /// Leaves out these events, too, and answers whether there is room for them.
    pub fn add(&mut self, more: Span) -> bool
        ensures room { result ≡ has_room self.old more }
        ensures added { self.new ≡ adding more self.old }
        ensures adds { IsTrue result → Adds more self.old self.new }
    {
        if more.end <= more.first {
            return true;
        }
        match self.spans_with(more) {
            Some(spans) => {
                self.spans = spans;
                true
            }
            None => false,
        }
    }

    pub fn is_left_out(&self, event: usize) -> bool
        ensures { result ≡ is_left_out self.now event }
    {
        with_event(self.spans.as_slice(), event).is_some()
    }

    /// Why this event can't be left out, if it can't.
    pub fn skip_fault_at(&self, ahead: Ahead, event: usize) -> Option<CallFault>
        ensures { result ≡ skip_fault_at self.now ahead event }
    {
        if let Some(fault) = self.fault_at(ahead, event) {
            return Some(fault);
        }
        self.last_fault(ahead, event).or(self.room_fault(Span {
            first: event,
            end: event + 1,
        }))
    }

    fn jump_fault_at(&self, ahead: Ahead, event: usize) -> Option<CallFault>
        ensures { result ≡ jump_fault_at self.now ahead event }
    {
        self.fault_at(ahead, event)
            .or(fixed_fault(ahead.cued))
            .or(self.room_fault(ahead.events.up_to(event)))
    }

    fn fault_at(&self, ahead: Ahead, event: usize) -> Option<CallFault>
        ensures { result ≡ fault_at self.now ahead event }
    {
        if !self.stays {
            Some(CallFault::NoStay)
        } else if ahead.events.end <= event {
            Some(CallFault::NoEvent(event))
        } else if event < ahead.events.first {
            Some(past_fault(ahead.cued, event))
        } else if self.is_left_out(event) {
            Some(CallFault::LeftOut(event))
        } else {
            None
        }
    }

    fn last_fault(&self, ahead: Ahead, event: usize) -> Option<CallFault>
        ensures { result ≡ last_fault self.now ahead event }
    {
        if ahead.cued == Cued::Replaceable && self.has_no_other(ahead.events, event) {
            Some(CallFault::Last(event))
        } else {
            None
        }
    }

    fn room_fault(&self, more: Span) -> Option<CallFault>
        ensures { result ≡ room_fault self.now more }
    {
        if self.has_room(more) {
            None
        } else {
            Some(CallFault::Full)
        }
    }

    // Whether each other event of the span is left out.
    fn has_no_other(&self, span: Span, event: usize) -> bool
        ensures { result ≡ has_no_other self.now span event }
    {
        let kept = self.next_kept(span.first);
        span.end <= kept || (kept == event && span.end <= self.next_kept(kept + 1))
    }

    fn has_room(&self, more: Span) -> bool
        ensures { result ≡ has_room self.now more }
    {
        more.end <= more.first || self.spans_with(more).is_some()
    }

    // The spans with these events, too, as one with those that they touch; None if that are too many.
    fn spans_with(&self, more: Span) -> Option<ArrayVec<Span, MOST_SPANS>>
        ensures { option_map (λ spans. spans.items) result ≡ spans_with self.now.spans.items more }
    {
        let mut spans = ArrayVec::new();
        let mut whole = more;
        for k in 0..self.spans.len() {
            let span = self.spans[k];
            if span.touches(whole) {
                whole = span.joined(whole);
            } else {
                spans.push(span);
            }
        }
        spans.try_push(whole).ok()?;
        Some(spans)
    }
}

fn past_fault(cued: Cued, event: usize) -> CallFault
    ensures { result ≡ past_fault cued event }
{
    match cued {
        Cued::Fixed(fixed) if fixed == event => CallFault::Cued(event),
        Cued::Nothing | Cued::Replaceable | Cued::Fixed(_) => CallFault::Past(event),
    }
}

fn fixed_fault(cued: Cued) -> Option<CallFault>
    ensures { result ≡ fixed_fault cued }
{
    match cued {
        Cued::Fixed(fixed) => Some(CallFault::Cued(fixed)),
        Cued::Nothing | Cued::Replaceable => None,
    }
}

// The first span that has this event.
fn with_event(spans: &[Span], event: usize) -> Option<Span>
    ensures { result ≡ find (λ span. has span event) spans.now }
{
    match spans {
        [] => None,
        [first, rest @ ..] => {
            if first.has(event) {
                Some(*first)
            } else {
                with_event(rest, event)
            }
        }
    }
}

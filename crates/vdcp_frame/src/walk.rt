//! A walk along a burst in memory.
ghost use Rattle.std.specs.Prelude.{◌≡◌, ◌≤◌, ◌∷◌, [], length, take, IfSome, IfNone, IfOk, OnErr, IfErr};
ghost use Rattle.vdcp_frame.specs.Burst.{messages_of, end_of};
ghost use Rattle.vdcp_frame.specs.Message.{content_of};
ghost use Rattle.vdcp_frame.specs.Reader.{IsEnd};
ghost use Rattle.vdcp_frame.specs.Reading.{SpellsAll};
ghost use Rattle.vdcp_frame.specs.Walk.{Walk, coming, end_seen};

use crate::burst::{Step, read_at};
use crate::got::Ended;
use crate::message::{Fault, Message};
use std::marker::Model;

/// How a burst ends.
#[derive(Clone, Copy, Debug, PartialEq, Eq)]
pub enum End {
    /// After a whole message, or with no byte.
    Clean,
    /// Inside a message, of which this many bytes came.
    Cut(usize),
    /// In a fault, with its place from 1.
    Fault(Fault, usize),
}

impl End {
    pub fn ended(self) -> Ended
        ensures { IsEnd result (end_seen self) }
    {
        match self {
            End::Clean => Ended::Clean,
            End::Cut(count) => Ended::Cut(count),
            End::Fault(_, _) => Ended::AfterFault,
        }
    }
}

/// The messages of a burst in memory, one after another, and then its end.
#[derive(Drop)]
pub struct Messages<'a> {
    burst: &'a [u8],
    place: usize,
    end: Option<End>,
}

impl<'a> Model for Messages<'a> {
    ghost use Rattle.std.specs.Prelude.{◌≡◌, IfSome};
    ghost use Rattle.vdcp_frame.specs.Burst.{end_of};
    ghost use Rattle.vdcp_frame.specs.Walk.{Walk, IsWalk, end_seen};

    ghost Value = { Walk };

    ghost view = { λ m. record { burst = m.burst.now; place = m.place } };

    ghost invariant = { λ m. IsWalk (record { burst = m.burst.now; place = m.place })
        × IfSome m.end (λ end. end_seen end ≡ end_of m.burst.now) };
}

impl<'a> Messages<'a> {
    pub fn of(burst: &'a [u8]) -> Self
        ensures burst { result.burst ≡ burst.now }
        ensures all { coming result ≡ messages_of burst.now }
    {
        Messages {
            burst,
            place: 0,
            end: None,
        }
    }

    pub fn next(&mut self) -> Option<Message<'a>>
        ensures some { IfSome result (λ m. coming self.old ≡ content_of m ∷ coming self.new) }
        ensures none { IfNone result (coming self.old ≡ []) }
        ensures rest { IfNone result (self.new ≡ self.old) }
        ensures burst { self.new.burst ≡ self.old.burst }
    {
        match self.step() {
            Ok(message) => Some(message),
            Err(end) => {
                self.end = Some(end);
                None
            }
        }
    }

    /// How the burst ends, whatever messages are left.
    pub fn end(mut self) -> End
        ensures { end_seen result ≡ end_of self.entry.burst }
    {
        if let Some(end) = self.end {
            return end;
        }
        'messages: loop {
            if let Err(end) = self.step() {
                return end;
            }
        }
    }

    fn step(&mut self) -> Result<Message<'a>, End>
        ensures some { IfOk result (λ m. coming self.old ≡ content_of m ∷ coming self.new) }
        ensures none { OnErr result (coming self.old ≡ []) }
        ensures end { IfErr result (λ end. end_seen end ≡ end_of self.old.burst) }
        ensures rest { OnErr result (self.new ≡ self.old) }
        ensures burst { self.new.burst ≡ self.old.burst }
    {
        match read_at(self.burst, self.place) {
            Step::Message(message, next) => {
                self.place = next;
                Ok(message)
            }
            Step::Clean => Err(End::Clean),
            Step::Cut(count) => Err(End::Cut(count)),
            Step::Fault(fault, place) => Err(End::Fault(fault, place)),
        }
    }
}

/// How many bytes at the front of a burst are whole messages.
pub fn whole_messages(burst: &[u8]) -> usize
    ensures limit { result ≤ 4096 }
    ensures within { result ≤ length burst.now }
    ensures spelt { SpellsAll (messages_of burst.now) (take result burst.now) }
{
    let mut messages = Messages::of(burst);
    'messages: while messages.next().is_some() {}
    messages.place
}

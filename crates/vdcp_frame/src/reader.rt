//! The reader of a burst that comes in pieces.
ghost use Rattle.std.specs.Prelude.{◌≡◌, ◌+◌, ◌<◌, ◌≤◌, ◌++◌, [], List, ℕ, length, take};
ghost use Rattle.vdcp_frame.specs.Message.{Content};
ghost use Rattle.vdcp_frame.specs.Place.{place_after};
ghost use Rattle.vdcp_frame.specs.Progress.{Progress, is_failed, reading};
ghost use Rattle.vdcp_frame.specs.declared.reader.Place.TheVariants as places;
ghost use Rattle.vdcp_frame.specs.Reader.{answer_of, Gives, fed, ended_of, Follows, FollowsNext, ReadsAs};
ghost use Rattle.vdcp_frame.specs.Pieces.{ReadsOn, GoesOn};

use crate::front::{fill, read_front};
use crate::got::{Ended, Got};
use crate::head::LONGEST;
use std::marker::Model;

/// Reads a burst that comes in pieces: pass each piece to `next` until that gives `More`, and call `silence` at each
/// silence. `feed` is one step, for a caller that keeps its place in the piece itself.
#[derive(Drop)]
pub struct Reader {
    place: Place,
    buffer: [u8; LONGEST],
}

#[derive(Clone, Copy)]
pub(crate) enum Place {
    /// The last `held` of the bytes taken begin a message, and are at the front of the buffer.
    Reading { taken: usize, held: usize },
    Failed,
}

impl Place {
    const fn after(taken: usize) -> Self
        ensures { result ≡ places.Reading taken 0 }
    {
        Place::Reading { taken, held: 0 }
    }

    fn further(taken: usize, held: usize, count: usize, got: &Got) -> Self
        requires taken { taken + count ≤ 4097 }
        requires held { held ≤ 258 }
        ensures { result ≡ place_after taken held count (answer_of got.now) }
    {
        match got {
            Got::Message(_) => Place::after(taken + count),
            Got::More => Place::Reading {
                taken: taken + count,
                held: held + count,
            },
            Got::Fault(_, _) => Place::Failed,
        }
    }
}

impl Model for Reader {
    ghost use Rattle.vdcp_frame.specs.Progress.{Progress};
    ghost use Rattle.vdcp_frame.specs.Place.{progress_at, IsPlace};

    ghost Value = { Progress };

    ghost view = { λ r. progress_at r.place r.buffer };

    ghost invariant = { λ r. IsPlace r.place r.buffer };
}

impl Reader {
    pub fn new() -> Self
        ensures new { result ≡ reading 0 [] }
        ensures follows { Follows [] [] result }
    {
        Reader {
            place: Place::after(0),
            buffer: [0; LONGEST],
        }
    }

    /// Whether a fault has come, after which nothing is read until the next silence.
    pub fn has_failed(&self) -> bool
        ensures { result ≡ is_failed self.now }
    {
        matches!(self.place, Place::Failed)
    }

    ghost use Rattle.std.specs.Borrow.{sem, follows_so};
    ghost use mathlib.Core.Option.{none};
    ghost use Rattle.std.specs.Prelude.{⊤};
    ghost use Rattle.vdcp_frame.specs.contracts.reader.Reader.{the_row};

    /// Takes bytes until a message or a fault has ended, or else all, and says how many. After a fault it takes all.
    pub fn feed(&mut self, piece: &[u8]) -> (usize, Got<'_>)
        ensures within { result.0 ≤ length piece.now }
        ensures some { 0 < length piece.now → 0 < result.0 }
        ensures gives { Gives self.old piece.now result.0 (answer_of result.1) }
        ensures follows { (burst : List ℕ) (ms : List Content) → Follows burst ms self.old →
            FollowsNext (burst ++ take result.0 piece.now) ms (answer_of result.1)
            (fed self.old piece.now result.0 (answer_of result.1)) }
        ensures* after { sem 𝓛 (follows_so the_row the_row self.entry.ghost_name none (λ _ _. ⊤)
            (λ new. new ≡ fed self.old piece.now result.0 (answer_of result.1))) }
    {
        let (taken, held) = match self.place {
            Place::Failed => return (piece.len(), Got::More),
            Place::Reading { taken, held } => (taken, held),
        };
        let count = fill(&mut self.buffer, taken, held, piece);
        let (count, got) = read_front(&self.buffer[..held + count], taken, held, piece);
        self.place = Place::further(taken, held, count, &got);
        (count, got)
    }

    /// As `feed`, but it takes the bytes from the front of `rest`. At `More` none is left.
    pub fn next(&mut self, rest: &mut &[u8]) -> Got<'_>
        ensures shorter { GoesOn (answer_of result) rest.old.now rest.new.now }
        ensures* reads { sem 𝓛 (follows_so the_row the_row self.entry.ghost_name none (λ _ _. ⊤)
            (λ new. ReadsOn self.old rest.old.now (answer_of result) rest.new.now new)) }
    {
        let piece = *rest;
        let (taken, got) = self.feed(piece);
        *rest = &piece[taken..];
        got
    }

    /// Ends the burst: the next byte begins a new one.
    pub fn silence(&mut self) -> Ended
        ensures ended { result ≡ ended_of self.old }
        ensures new { self.new ≡ reading 0 [] }
        ensures reads { (burst : List ℕ) (ms : List Content) → Follows burst ms self.old → ReadsAs burst ms result }
        ensures follows { Follows [] [] self.new }
    {
        let ended = match self.place {
            Place::Failed => Ended::AfterFault,
            Place::Reading { held: 0, .. } => Ended::Clean,
            Place::Reading { held, .. } => Ended::Cut(held),
        };
        self.place = Place::after(0);
        ended
    }
}

//! Which events of a list can still be left out.
ghost use Rattle.std.specs.Prelude.{◌≡◌, ◌-◌, length};
ghost use Rattle.vdcp_auto.specs.Bounds.{IsPhaseOf};
ghost use Rattle.vdcp_operator.specs.LeftOut.{ahead_of, cued_as, cued_in, first_ahead, first_unasked, unasked_behind};

use crate::left_out::Span;
use vdcp_auto::{Controller, Mode, Phase, Source, Standing};
use vdcp_list::Rest;

/// What can still be left out of a list. Events have their numbers in the whole list.
#[derive(Clone, Copy, Debug, PartialEq, Eq)]
pub struct Ahead {
    pub events: Span,
    pub cued: Cued,
}

/// What the port may hold cued that hasn't aired.
#[derive(Clone, Copy, Debug, PartialEq, Eq)]
pub enum Cued {
    Nothing,
    /// The first of the events ahead, or one before it: the cue of another event replaces that (plain mode).
    Replaceable,
    /// This one, before the events ahead: it airs (confirm mode).
    Fixed(usize),
}

pub fn ahead_of<S: Source>(controller: &Controller<Rest<S>>) -> Ahead
    ensures { result ≡ ahead_of S.items controller.now }
{
    let from = controller.source().from();
    let mode = controller.snapshot().mode;
    let (cued, unasked) = (cued_in(controller), first_unasked(controller));
    Ahead {
        events: Span {
            first: first_ahead(mode, cued, unasked),
            end: controller.source().whole().len(),
        },
        cued: cued_as(mode, cued, from, unasked),
    }
}

fn first_ahead(mode: Mode, cued: Option<usize>, unasked: usize) -> usize
    ensures { result ≡ first_ahead mode cued unasked }
{
    match (mode, cued) {
        (Mode::Plain, Some(event)) => event,
        (Mode::Plain, None) | (Mode::Confirming, _) => unasked,
    }
}

fn cued_as(mode: Mode, cued: Option<usize>, from: usize, unasked: usize) -> Cued
    ensures { result ≡ cued_as mode cued from unasked }
{
    match (mode, cued) {
        (Mode::Plain, Some(_)) => Cued::Replaceable,
        (Mode::Plain, None) if 0 < from && unasked == from => Cued::Replaceable,
        (Mode::Confirming, Some(event)) => Cued::Fixed(event),
        (Mode::Plain | Mode::Confirming, None) => Cued::Nothing,
    }
}

fn cued_in<S: Source>(controller: &Controller<Rest<S>>) -> Option<usize>
    ensures { result ≡ cued_in controller.now.source.from controller.now.state.stage }
{
    match controller.snapshot().standing {
        Standing::Awaiting(Phase::Exists(k) | Phase::Cue(k) | Phase::Wait(k))
        | Standing::Ready(Phase::Cue(k) | Phase::Wait(k) | Phase::Play(k)) => {
            Some(controller.source().from() + k)
        }
        _ => None,
    }
}

fn first_unasked<S: Source>(controller: &Controller<Rest<S>>) -> usize
    ensures { result ≡ first_unasked controller.now.source.from (length (S.items controller.now.source.source)) controller.now.state.stage }
{
    let from = controller.source().from();
    let events = controller.source().whole().len();
    match controller.snapshot().standing {
        Standing::Ready(Phase::Exists(k)) => from + k,
        Standing::Ready(phase) | Standing::Awaiting(phase) => unasked_behind(from, events, phase),
        Standing::Ended(_) => events,
    }
}

fn unasked_behind(from: usize, events: usize, phase: Phase) -> usize
    requires { IsPhaseOf (events - from) phase }
    ensures { result ≡ unasked_behind from events phase }
{
    match phase {
        Phase::Open | Phase::Select | Phase::Seen => from,
        Phase::Exists(k)
        | Phase::Cue(k)
        | Phase::Wait(k)
        | Phase::Play(k)
        | Phase::Probe(k)
        | Phase::Check(k) => from + k + 1,
        Phase::Drain | Phase::Close | Phase::Halt | Phase::HaltClose => events,
    }
}

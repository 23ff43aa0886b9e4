//! The world, and what holds of it whatever happens.
ghost use Rattle.std.specs.Prelude.{ℕ, ◌≡◌, ◌≢◌, ◌+◌, ◌≤◌, ◌<◌, ◌++◌, List, Some, length, take, IsTrue, IfSome, OnOk, OnErr};
ghost use Rattle.vdcp_auto.specs.RuleBook.{KeepsRules};
ghost use Rattle.vdcp_auto.specs.Settled.{settled};
ghost use Rattle.vdcp_auto.specs.Turn.{is_ready, outcome_of};
ghost use Rattle.vdcp_value.specs.declared.part.Item.{Item};
ghost use Rattle.vdcp_auto.specs.declared.outcome.Outcome.TheVariants.{Denied, Foreign, Strange};
ghost use Rattle.vdcp_auto.specs.declared.phase.Mode.TheVariants.{Plain, Confirming};
ghost use Rattle.vdcp_world.specs.declared.event.Event.{Event};
ghost use Rattle.vdcp_world.specs.AtEnd.{LeavesPort};
ghost use Rattle.vdcp_world.specs.InStep.{GoesInStep, CanCatchUp, rounds_in_step};
ghost use Rattle.vdcp_world.specs.Channel.{new_channel, after_event, after_events, make_of, HappenInPart};
ghost use Rattle.vdcp_world.specs.Headline.{Headline, Means, is_complete};
ghost use Rattle.vdcp_world.specs.Rounds.{good_round, times};
ghost use Rattle.vdcp_world.specs.BoundedEnd.{IsDone, CanGoOn, CanBegin, rounds_to_go_on, rounds_from_new};

use crate::event::Event;
use crate::laws::{
    an_end_leaves_the_port_at_rest, good_rounds_bring_all_to_air,
    good_rounds_bring_the_rest_to_air, reached_keeps_the_headline,
};
use crate::link::Link;
use std::alloc::{AllocError, Allocator};
use std::marker::Model;
use vdcp_auto::{Controller, Exchange, Outcome, Source};
use vdcp_port::{Catalogue, Port};
use vdcp_value::Item;

/// A controller, a port of the same unit address and port number, and the line between them: one burst each way.
///
/// Whatever happens, what went to air is a beginning of the playlist, each event once and in order; what is reported as
/// aired is that, or one event less (`headline`). Memory is taken for what went to air and for the log alone.
#[derive(Drop)]
pub struct World<S: Source, C: Catalogue, A: Allocator> {
    link: Link<S, C, A>,
}

impl<S: Source, C: Catalogue, A: Allocator> Model for World<S, C, A> {
    ghost use Rattle.vdcp_world.specs.Channel.{Channel, IsReached};

    ghost Value = { Channel };

    ghost view = { λ w. w.link };

    ghost invariant = { λ w. IsReached w.link };
}

impl<S: Source, C: Catalogue, A: Allocator + Copy> World<S, C, A> {
    /// Plain mode. `unit` is 0 to 15; `limit` unanswered exchanges in a row, 1 to 1,000, end it; a cue takes
    /// `cue_frames` frames, 1 to 1,000.
    pub fn with_clock(
        alloc: A,
        source: S,
        catalogue: C,
        unit: u8,
        port: u8,
        limit: u32,
        cue_frames: u32,
    ) -> Self
        requires unit { unit ≤ 15 }
        requires some { 1 ≤ limit }
        requires few { limit ≤ 1000 }
        requires some_frames { 1 ≤ cue_frames }
        requires few_frames { cue_frames ≤ 1000 }
        ensures new { result ≡ new_channel
            (record { mode = Plain; list = S.items source; port = port; limit = limit })
            (C.clips catalogue) unit cue_frames }
        ensures headline { Headline result }
    {
        reached_keeps_the_headline();
        World {
            link: Link::new(
                alloc,
                Controller::new(source, port, limit),
                Port::with_clock(catalogue, unit, port, cue_frames),
            ),
        }
    }

    /// As `with_clock`, but in confirm mode: a receipt may come to the controller from nowhere (`AlterUp`, `StrayAck`).
    pub fn confirming(
        alloc: A,
        source: S,
        catalogue: C,
        unit: u8,
        port: u8,
        limit: u32,
        cue_frames: u32,
    ) -> Self
        requires unit { unit ≤ 15 }
        requires some { 1 ≤ limit }
        requires few { limit ≤ 1000 }
        requires some_frames { 1 ≤ cue_frames }
        requires few_frames { cue_frames ≤ 1000 }
        ensures new { result ≡ new_channel
            (record { mode = Confirming; list = S.items source; port = port; limit = limit })
            (C.clips catalogue) unit cue_frames }
        ensures headline { Headline result }
    {
        reached_keeps_the_headline();
        World {
            link: Link::new(
                alloc,
                Controller::confirming(source, port, limit),
                Port::with_clock(catalogue, unit, port, cue_frames),
            ),
        }
    }

    /// The event happens, unless it can't. If memory is refused nothing has changed.
    pub fn step(&mut self, event: &Event) -> Result<(), AllocError>
        ensures step { OnOk result (self.new ≡ after_event self.old event.now) }
        ensures refused { OnErr result (self.new ≡ self.old) }
        ensures make { make_of self.new ≡ make_of self.old }
        ensures headline { Headline self.new }
    {
        reached_keeps_the_headline();
        self.link.step(event)
    }

    /// The events happen, in order, up to the first for which memory is refused.
    ///
    /// Enough good rounds (`Timeout`, `Ready`, `End`, `Tick`, `Down`, `Up`) bring a playable list to air, and the controller
    /// to Done: the last four clauses say how many, and from which worlds.
    pub fn run(&mut self, events: &[Event]) -> Result<(), AllocError>
        ensures run { OnOk result (self.new ≡ after_events self.old events.now) }
        ensures front { OnErr result (HappenInPart events.now self.old self.new) }
        ensures make { make_of self.new ≡ make_of self.old }
        ensures headline { Headline self.new }
        ensures plain_end { (n : ℕ) → events.now ≡ times n good_round → CanGoOn self.old
            → rounds_to_go_on self.old ≤ n →
            OnOk result (IsDone self.new) }
        ensures confirming_end { (n : ℕ) → events.now ≡ times n good_round → CanBegin self.old
            → rounds_from_new self.old ≤ n →
            OnOk result (IsDone self.new) }
        ensures in_step_end { (n : ℕ) → events.now ≡ times n good_round → GoesInStep self.old →
            rounds_in_step self.old ≤ n → OnOk result (IsDone self.new) }
        ensures catch_up_end { (n : ℕ) → events.now ≡ times n good_round → CanCatchUp self.old →
            rounds_in_step self.old ≤ n → OnOk result (IsDone self.new) }
    {
        reached_keeps_the_headline();
        good_rounds_bring_all_to_air();
        good_rounds_bring_the_rest_to_air();
        // Read once, so that the prover knows that events have led to this world.
        let _ = &self.link;
        for event in events {
            self.step(event)?;
        }
        Ok(())
    }

    pub fn aired(&self) -> &[Item]
        ensures items { result.now ≡ self.now.aired }
        ensures beginning { (more : List Item) × (self.now.plan.list ≡ result.now ++ more) }
    {
        reached_keeps_the_headline();
        self.link.aired()
    }

    /// How many events the controller knows to have aired: all that went to air, or all but the last.
    pub fn reported(&self) -> usize
        ensures count { result ≡ self.now.state.settled }
        ensures settled { result ≡ settled self.now.plan.mode self.now.log }
        ensures aired { result ≤ length self.now.aired }
        ensures but_one { length self.now.aired ≤ result + 1 }
        ensures beginning { (last : List Item) × (self.now.aired ≡ take result self.now.plan.list ++ last)
            × (length last ≤ 1) }
        ensures within { length (take result self.now.plan.list) ≡ result }
        ensures complete { IfSome (outcome_of self.now.state.stage)
            (λ outcome. IsTrue (is_complete outcome) → self.now.aired ≡ take result self.now.plan.list) }
    {
        reached_keeps_the_headline();
        self.link.reported()
    }

    pub fn log(&self) -> &[Exchange]
        ensures exchanges { result.now ≡ self.now.log }
        ensures keeps_rules { KeepsRules self.now.plan.mode self.now.plan.list result.now }
    {
        reached_keeps_the_headline();
        self.link.log()
    }

    /// The controller awaits nothing, and hasn't ended: the next tick gives a command.
    pub fn is_ready(&self) -> bool
        ensures { result ≡ is_ready self.now.state.stage }
    {
        self.link.is_ready()
    }

    /// The operator wants to stop, and STOP hasn't gone out yet.
    pub fn wishes_to_stop(&self) -> bool
        ensures { result ≡ self.now.state.stop }
    {
        self.link.wishes_to_stop()
    }

    /// How the controller ended, if it did: never Denied, Foreign or Strange.
    pub fn outcome(&self) -> Option<Outcome>
        ensures outcome { result ≡ outcome_of self.now.state.stage }
        ensures not_denied { result ≢ Some Denied }
        ensures not_foreign { (k : ℕ) → result ≢ Some (Foreign k) }
        ensures not_strange { (k : ℕ) → result ≢ Some (Strange k) }
        ensures means { IfSome result (Means self.now.port.clips self.now.plan self.now.aired self.now.log) }
        ensures leaves { IfSome result (LeavesPort self.now.plan.mode self.now.port.state) }
    {
        reached_keeps_the_headline();
        an_end_leaves_the_port_at_rest();
        self.link.outcome()
    }
}

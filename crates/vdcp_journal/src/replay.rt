//! The controller that the rows of a run make.
ghost use Rattle.std.specs.Borrow.{Bor};
ghost use Rattle.std.specs.Prelude.{List, ◌≡◌, ◌≤◌, ◌↔◌, ◌+◌, ◌∷◌, ◌++◌, [], IfErr, IsFalse, IsTrue, OnErr, OnOk, Some, None, if◌then◌else◌, Option, Bool, length};
ghost use Rattle.vdcp_auto.specs.Log.{is_answered, is_play};
ghost use Rattle.vdcp_auto.specs.Plan.{Plan, plan_of};
ghost use Rattle.vdcp_auto.specs.Snapshots.{CanStand, view_of};
ghost use Rattle.vdcp_auto.specs.Turn.{awaited, new_controller, outcome_of};
ghost use Rattle.vdcp_auto.specs.declared.outcome.Outcome.TheVariants as outcomes;
ghost use Rattle.vdcp_journal.specs.RunsSoFar.{IsMadeBy, IsCalled, IsRaised, again_of};
ghost use Rattle.vdcp_journal.specs.Resume.{Stands, Tells, after_call_if, call_of, fault_of, is_loss, limit_after, timed_out};
ghost use Rattle.vdcp_list.specs.Rests.{FromEvent, items_left};

use crate::faults::ResumeFault;
use crate::losses::{is_loss, limit_after};
use crate::row::{Note, Row};
use std::marker::Model;
use vdcp_auto::{Controller, Mode, Outcome, Snapshot, Source};
use vdcp_list::Rest;
use vdcp_value::laws::an_id_is_its_bytes;
use vdcp_words::Command;

#[derive(Drop)]
pub struct Resumed<S: Source> {
    pub controller: Controller<S>,
    /// The command whose exchange was open and is timed out now. The journal has to say so, by `Silence`, before the next
    /// command goes out.
    pub open: Option<Command>,
    /// The controller before that exchange was timed out.
    pub stood: Snapshot,
}

/// Makes the controller of a run anew, from its rows one by one. Each time that the run was lost, its limit grows by
/// the one that it began with, up to 1,000.
#[derive(Drop)]
pub struct RunSoFar<'s, S: Source> {
    controller: Controller<Rest<&'s S>>,
    // The controller before the last call and the note of that: from there it goes on under a greater limit.
    before: Snapshot,
    last: Option<Note>,
    // The limit at the beginning, and how often the run was lost: more than 1,000 times change nothing.
    limit: u32,
    lost: u32,
}

impl<'s, S: Source> Model for RunSoFar<'s, S> {
    ghost use Rattle.std.specs.Borrow.{Bor};
    ghost use Rattle.vdcp_journal.specs.RunsSoFar.{CanBeRun, RunView, view_in};
    ghost use Rattle.vdcp_list.specs.Rests.{FromEvent, items_left};

    ghost Value = { RunView (FromEvent (Bor S)) };

    ghost view = { λ r. view_in r.controller r.before r.last r.limit r.lost };

    ghost invariant = { λ r. CanBeRun (items_left (λ s. S.items s.now))
        (view_in r.controller r.before r.last r.limit r.lost) };
}

impl<'s, S: Source> RunSoFar<'s, S> {
    /// Begins with event `from` of the list. The limit is 1 to 1,000.
    pub fn new(source: &'s S, from: usize, mode: Mode, port: u8, limit: u32) -> Self
        requires from { from ≤ length (S.items source.now) }
        requires some { 1 ≤ limit }
        requires few { limit ≤ 1000 }
        ensures { IsMadeBy (items_left (λ s. S.items s.now)) (plan_of (items_left (λ s. S.items s.now))
            (new_controller (record { source = source.entry; from = from }) mode port limit)) (record { source = source.entry; from = from }) [] result }
    {
        let controller = new_controller(source, from, mode, port, limit);
        let before = controller.snapshot();
        RunSoFar {
            controller,
            before,
            last: None,
            limit,
            lost: 0,
        }
    }

    /// Takes the next row, if the controller does there what it notes. The fault is `Command` if it sends another command
    /// or none, `Unawaited` if it doesn't await that, and `Outcome` if it hasn't ended so; then the run is of no more use.
    pub fn follow(&mut self, row: &Row) -> Result<(), ResumeFault>
        ensures stands { (plan : Plan) (source : FromEvent (Bor S)) (rows : List Row)
            → IsMadeBy (items_left (λ s. S.items s.now)) plan source rows self.old
            → OnOk result (IsMadeBy (items_left (λ s. S.items s.now)) plan source (rows ++ row.now ∷ []) self.new) }
        ensures falls { (plan : Plan) (source : FromEvent (Bor S)) (rows : List Row)
            → IsMadeBy (items_left (λ s. S.items s.now)) plan source rows self.old
            → OnErr result (¬ Stands plan rows row.now.note) }
        ensures fault { IfErr result (λ fault. fault ≡ fault_of row.now.note) }
    {
        let stands = if is_loss(&row.note) {
            self.raise_if_lost()
        } else {
            self.call_as_noted(&row.note)
        };
        if !stands {
            return Err(fault_of(&row.note));
        }
        Ok(())
    }

    // The note isn't that of a loss.
    fn call_as_noted(&mut self, note: &Note) -> bool
        ensures told { IsTrue result → Tells (plan_of (items_left (λ s. S.items s.now)) self.old.controller)
            self.old.controller.state note.now }
        ensures untold { IsFalse result → ¬ Tells (plan_of (items_left (λ s. S.items s.now)) self.old.controller)
            self.old.controller.state note.now }
        ensures called { IsTrue result → IsCalled (items_left (λ s. S.items s.now)) note.now self.old self.new }
    {
        let before = self.controller.snapshot();
        if !goes_on(&mut self.controller, note) {
            return false;
        }
        if !matches!(note, Note::List(_) | Note::End(_)) {
            self.before = before;
            self.last = Some(*note);
        }
        true
    }

    fn raise_if_lost(&mut self) -> bool
        ensures lost { IsTrue result ↔ (outcome_of self.old.controller.state.stage ≡ Some outcomes.Lost) }
        ensures raised { IsTrue result → IsRaised (items_left (λ s. S.items s.now)) self.old self.new }
    {
        if self.controller.outcome() != Some(Outcome::Lost) {
            return false;
        }
        let limit = limit_after(self.limit, self.lost + 1);
        self.controller = under_limit(self.controller.source(), &self.before, self.last, limit);
        if self.lost < 1000 {
            self.lost += 1;
        }
        true
    }

    /// Times out the exchange that is open, if one is, and gives the controller that goes on.
    pub fn resume(mut self) -> Resumed<Rest<&'s S>>
        ensures controller { result.controller ≡ record self.entry.controller {
          state = timed_out (plan_of (items_left (λ s. S.items s.now)) self.entry.controller) self.entry.controller.state;
        } }
        ensures open { result.«open» ≡ awaited (plan_of (items_left (λ s. S.items s.now)) self.entry.controller) self.entry.controller.state }
        ensures stood { self.entry.controller ≡ view_of self.entry.controller.source result.stood }
        ensures can_stand { CanStand (length (items_left (λ s. S.items s.now) self.entry.controller.source)) result.stood }
    {
        let stood = self.controller.snapshot();
        let open = self.controller.awaited();
        self.controller.timeout();
        Resumed {
            controller: self.controller,
            open,
            stood,
        }
    }
}

fn new_controller<'s, S: Source>(
    source: &'s S,
    from: usize,
    mode: Mode,
    port: u8,
    limit: u32,
) -> Controller<Rest<&'s S>>
    requires from { from ≤ length (S.items source.now) }
    requires some { 1 ≤ limit }
    requires few { limit ≤ 1000 }
    ensures { result ≡ new_controller (record { source = source.entry; from = from }) mode port limit }
{
    let rest = Rest::new(source, from);
    match mode {
        Mode::Plain => Controller::new(rest, port, limit),
        Mode::Confirming => Controller::confirming(rest, port, limit),
    }
}

fn under_limit<'s, S: Source>(
    events: &Rest<&'s S>,
    before: &Snapshot,
    last: Option<Note>,
    limit: u32,
) -> Controller<Rest<&'s S>>
    requires few { limit ≤ 1000 }
    requires less { before.now.limit ≤ limit }
    requires can_stand { CanStand (length (items_left (λ s. S.items s.now) events.now)) before.now }
    ensures { result ≡ again_of (items_left (λ s. S.items s.now)) events.now before.now last limit }
{
    let rest = Rest::new(*events.whole(), events.from());
    let mut controller = Controller::of_snapshot(rest, &Snapshot { limit, ..*before });
    if let Some(note) = last {
        give(&mut controller, &note);
    }
    controller
}

fn goes_on<S: Source>(controller: &mut Controller<S>, note: &Note) -> bool
    ensures told { IsTrue result → Tells (plan_of S.items controller.old) controller.old.state note.now }
    ensures untold { IsFalse result → ¬ Tells (plan_of S.items controller.old) controller.old.state note.now }
    ensures after { IsTrue result → controller.new ≡ record controller.old {
      state = after_call_if (plan_of S.items controller.old) (call_of note.now) controller.old.state;
    } }
    ensures made_with { controller.new ≡ record controller.old { state = controller.new.state } }
{
    an_id_is_its_bytes();
    match note {
        Note::Sent(command) => match controller.tick() {
            Some(given) => given == *command,
            None => false,
        },
        Note::Heard(heard) => controller.receive(Some(*heard)).is_some(),
        Note::Silence => controller.receive(None).is_some(),
        Note::Take => {
            controller.take();
            controller.outcome().is_none()
        }
        Note::Stop => {
            controller.stop();
            controller.outcome().is_none()
        }
        Note::List(_) => controller.outcome().is_none(),
        // (that a run was lost is no call, and it may be gone on from)
        Note::End(Outcome::Lost) => true,
        Note::End(outcome) => controller.outcome() == Some(*outcome),
        // (no controller goes on as a new one)
        Note::From(_) | Note::Left(_) => false,
    }
}

pub(crate) fn give<S: Source>(controller: &mut Controller<S>, note: &Note)
    ensures { controller.new ≡ record controller.old {
      state = after_call_if (plan_of S.items controller.old) (call_of note.now) controller.old.state;
    } }
{
    match note {
        Note::Sent(_) => {
            controller.tick();
        }
        Note::Heard(heard) => controller.hear(heard),
        Note::Silence => controller.timeout(),
        Note::Take => controller.take(),
        Note::Stop => controller.stop(),
        Note::List(_) | Note::End(_) | Note::From(_) | Note::Left(_) => {}
    }
}

fn fault_of(note: &Note) -> ResumeFault
    ensures { result ≡ fault_of note.now }
{
    match note {
        Note::Sent(_) => ResumeFault::Command,
        Note::End(_) => ResumeFault::Outcome,
        _ => ResumeFault::Unawaited,
    }
}

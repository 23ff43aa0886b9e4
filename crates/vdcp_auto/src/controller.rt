//! The controller, and what each of its calls does.
ghost use Rattle.std.specs.Prelude.{◌≡◌, ◌↔◌, ◌<◌, ◌≤◌, ◌^◌, Some, None, IsTrue, is_some, IfSome, length};
ghost use Rattle.vdcp_auto.specs.Plan.{plan_of};
ghost use Rattle.vdcp_auto.specs.Turn as turns;
ghost use Rattle.vdcp_words.specs.Commands.{IsWritableCommand};

use crate::exchange::{Exchange, Heard};
use crate::meaning;
use crate::outcome::Outcome;
use crate::phase::{Mode, Phase, Position};
use crate::snapshot::{Snapshot, Standing};
use crate::source::Source;
use std::marker::Model;
use vdcp_words::Command;

mod table;

/// Plays a list through one port: the caller sends what `tick` gives, and calls `hear` with what came, or `timeout`,
/// until `awaiting` is false; and so on until `outcome` answers. The operator's `take`, `stop` and `forget` may come at
/// any time.
///
/// `receive` is `hear` and `timeout` in one, and `to_send` with `await_answer` is `tick` in two steps.
#[derive(Drop)]
pub struct Controller<S: Source> {
    source: S,
    mode: Mode,
    port: u8,
    limit: u32,
    position: Position,
    take: bool,
    stop: bool,
    // How many exchanges in a row were unanswered (in confirm mode, of those that ask for a reply).
    unanswered: u32,
    settled: usize,
    // How often the event's cue was lost (confirm mode).
    tries: u32,
}

impl<S: Source> Model for Controller<S> {
    ghost use Rattle.std.specs.Prelude.{◌≤◌, ◌<◌, length};
    ghost use Rattle.vdcp_auto.specs.Plan.{View};

    ghost Value = { View S };

    ghost use Rattle.vdcp_auto.specs.Bounds.{IsStageOf, KeepsCommand};
    ghost use Rattle.vdcp_auto.specs.State.{stage_of};

    ghost view = { λ c. record {
      source = c.source;
      mode = c.mode;
      port = c.port;
      limit = c.limit;
      state = record {
        stage = stage_of c.position;
        take = c.take;
        stop = c.stop;
        unanswered = c.unanswered;
        settled = c.settled;
        tries = c.tries;
      };
    } };

    ghost invariant = { λ c. (1 ≤ c.limit) × (c.limit ≤ 1000) × (c.tries < c.limit)
        × IsStageOf (length (S.items c.source)) c.limit c.unanswered (stage_of c.position)
        × KeepsCommand (S.items c.source) c.port c.position
        × (c.settled ≤ length (S.items c.source)) };
}

impl<S: Source> Controller<S> {
    /// Makes a controller in plain mode, which gives up after `limit` unanswered exchanges in a row.
    pub fn new(source: S, port: u8, limit: u32) -> Self
        requires some { 1 ≤ limit }
        requires few { limit ≤ 1000 }
        ensures { result ≡ turns.new_controller source Mode.Plain port limit }
    {
        Self::begun(source, Mode::Plain, port, limit)
    }

    /// Makes one in confirm mode. It gives up after `limit` unanswered requests in a row, or lost cues of one event.
    pub fn confirming(source: S, port: u8, limit: u32) -> Self
        requires some { 1 ≤ limit }
        requires few { limit ≤ 1000 }
        ensures { result ≡ turns.new_controller source Mode.Confirming port limit }
    {
        Self::begun(source, Mode::Confirming, port, limit)
    }

    fn begun(source: S, mode: Mode, port: u8, limit: u32) -> Self
        requires some { 1 ≤ limit }
        requires few { limit ≤ 1000 }
        ensures { result ≡ turns.new_controller source mode port limit }
    {
        Controller {
            source,
            mode,
            port,
            limit,
            position: Position::Ready(Phase::Open),
            take: false,
            stop: false,
            unanswered: 0,
            settled: 0,
            tries: 0,
        }
    }

    ghost use Rattle.vdcp_auto.specs.Snapshots.{CanStand, view_of};

    /// All that the controller knows, but for its list; `of_snapshot` makes the controller again.
    pub fn snapshot(&self) -> Snapshot
        ensures seen { self.now ≡ view_of self.now.source result }
        ensures again { CanStand (length (S.items self.now.source)) result }
    {
        Snapshot {
            mode: self.mode,
            port: self.port,
            limit: self.limit,
            standing: match self.position {
                Position::Ready(phase) => Standing::Ready(phase),
                Position::Awaiting(phase, _) => Standing::Awaiting(phase),
                Position::Ended(outcome) => Standing::Ended(outcome),
            },
            take: self.take,
            stop: self.stop,
            unanswered: self.unanswered,
            settled: self.settled,
            tries: self.tries,
        }
    }

    /// `Snapshot::can_stand` tests what this requires.
    pub fn of_snapshot(source: S, snapshot: &Snapshot) -> Controller<S>
        requires { CanStand (length (S.items source)) snapshot.now }
        ensures { result ≡ view_of source snapshot.now }
    {
        let mut controller = Self::begun(source, snapshot.mode, snapshot.port, snapshot.limit);
        controller.position = match snapshot.standing {
            Standing::Ready(phase) => Position::Ready(phase),
            Standing::Awaiting(phase) => Position::Awaiting(phase, controller.command_in(phase)),
            Standing::Ended(outcome) => Position::Ended(outcome),
        };
        controller.take = snapshot.take;
        controller.stop = snapshot.stop;
        controller.unanswered = snapshot.unanswered;
        controller.settled = snapshot.settled;
        controller.tries = snapshot.tries;
        controller
    }

    pub fn is_confirming(&self) -> bool
        ensures { IsTrue result ↔ (self.now.mode ≡ Mode.Confirming) }
    {
        self.mode == Mode::Confirming
    }

    /// Whether a tick gives a command: nothing is awaited, and the controller hasn't ended.
    pub fn is_ready(&self) -> bool
        ensures ready { result ≡ turns.is_ready self.now.state.stage }
        ensures given { result ≡ is_some (turns.given (plan_of S.items self.now) self.now.state) }
    {
        matches!(self.position, Position::Ready(_))
    }

    /// Whether a command was given whose exchange hasn't ended.
    pub fn awaiting(&self) -> bool
        ensures awaiting { result ≡ turns.is_awaiting self.now.state.stage }
        ensures awaited { result ≡ is_some (turns.awaited (plan_of S.items self.now) self.now.state) }
    {
        matches!(self.position, Position::Awaiting(_, _))
    }

    /// Whether the operator wants to stop, and the STOP hasn't gone out yet.
    pub fn wishes_to_stop(&self) -> bool
        ensures { result ≡ self.now.state.stop }
    {
        let Self { stop, .. } = self;
        *stop
    }

    pub fn awaited(&self) -> Option<Command>
        ensures awaited { result ≡ turns.awaited (plan_of S.items self.now) self.now.state }
        ensures writable { IfSome result IsWritableCommand }
    {
        match self.position {
            Position::Awaiting(_, command) => Some(command),
            Position::Ready(_) | Position::Ended(_) => None,
        }
    }

    /// What the next `tick` gives, without giving it.
    pub fn to_send(&self) -> Option<Command>
        ensures command { result ≡ turns.given (plan_of S.items self.now) self.now.state }
        ensures ready { is_some result ≡ turns.is_ready self.now.state.stage }
        ensures writable { IfSome result IsWritableCommand }
    {
        let Position::Ready(current) = self.position else {
            return None;
        };
        let next = if self.stop { Phase::Halt } else { current };
        Some(self.command_in(next))
    }

    /// How many events the controller takes for aired: the first ones of the list.
    pub fn settled(&self) -> usize
        ensures count { result ≡ self.now.state.settled }
        ensures within { result ≤ length (S.items self.now.source) }
    {
        let Self { settled, .. } = self;
        *settled
    }

    /// `None` while the controller goes on.
    pub fn outcome(&self) -> Option<Outcome>
        ensures { result ≡ turns.outcome_of self.now.state.stage }
    {
        match self.position {
            Position::Ready(_) | Position::Awaiting(_, _) => None,
            Position::Ended(outcome) => Some(outcome),
        }
    }

    pub fn source(&self) -> &S
        ensures { result.now ≡ self.now.source }
    {
        &self.source
    }

    /// Takes what came, if a command is awaited. In confirm mode receipts change nothing, nor does anything while a
    /// command is awaited that only a receipt answers.
    pub fn hear(&mut self, heard: &Heard)
        ensures { self.new ≡ record self.old {
          state = turns.came_to (plan_of S.items self.old) (Some heard.now) self.old.state;
        } }
    {
        self.receive(Some(*heard));
    }

    /// Says that nothing came in time for the awaited command, if there is one.
    pub fn timeout(&mut self)
        ensures { self.new ≡ record self.old {
          state = turns.came_to (plan_of S.items self.old) None self.old.state;
        } }
    {
        self.receive(None);
    }

    /// Does as `hear`, or for `None` as `timeout`, and gives the exchange that this ended.
    pub fn receive(&mut self, came: Option<Heard>) -> Option<Exchange>
        ensures exchange { result ≡ turns.ended_by (plan_of S.items self.old) came self.old.state }
        ensures after { self.new ≡ record self.old {
          state = turns.came_to (plan_of S.items self.old) came self.old.state;
        } }
    {
        let Position::Awaiting(phase, command) = self.position else {
            return None;
        };
        if !meaning::is_end(self.mode, &command, &came) {
            return None;
        }
        let exchange = Exchange {
            command,
            heard: came,
        };
        self.end(phase, &exchange);
        Some(exchange)
    }

    /// The operator wants the next event though the last one still plays. The wish holds until PLAY is sent.
    pub fn take(&mut self)
        ensures { self.new ≡ record self.old { state = turns.taken self.old.state } }
    {
        self.take = true;
    }

    /// The operator wants to stop. The awaited exchange still ends; unless it ends the controller, STOP and then CLOSE
    /// go out. Once CLOSE is next, STOP is on its way or the controller has ended, the call changes nothing.
    pub fn stop(&mut self)
        ensures { self.new ≡ record self.old { state = turns.stopped self.old.state } }
    {
        match self.position {
            Position::Ready(phase) | Position::Awaiting(phase, _) => {
                if phase.can_stop() {
                    self.stop = true;
                }
            }
            Position::Ended(_) => {}
        }
    }

    /// Forgets the wishes of `take` and `stop` that weren't acted on, as if the automation were started anew.
    pub fn forget(&mut self)
        ensures { self.new ≡ record self.old { state = turns.forgotten self.old.state } }
    {
        self.take = false;
        self.stop = false;
    }

    /// Gives the next command, and awaits its answer. `None` if an answer is awaited, or the controller has ended.
    pub fn tick(&mut self) -> Option<Command>
        ensures command { result ≡ turns.given (plan_of S.items self.old) self.old.state }
        ensures ready { is_some result ≡ turns.is_ready self.old.state.stage }
        ensures writable { IfSome result IsWritableCommand }
        ensures after { self.new ≡ record self.old { state = turns.ticked self.old.state } }
    {
        let command = self.to_send()?;
        self.await_answer(&command);
        Some(command)
    }

    /// Awaits the answer to what `to_send` gives, as `tick` does.
    pub fn await_answer(&mut self, command: &Command)
        requires given { turns.given (plan_of S.items self.old) self.old.state ≡ Some command.now }
        requires writable { IsWritableCommand command.now }
        ensures { self.new ≡ record self.old { state = turns.ticked self.old.state } }
    {
        if let Position::Ready(current) = self.position {
            let phase = if self.stop { Phase::Halt } else { current };
            self.position = Position::Awaiting(phase, *command);
            self.take = self.take && !matches!(phase, Phase::Play(_));
            self.stop = false;
        }
    }
}

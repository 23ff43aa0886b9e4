//! The automation's end: it sends commands, and hears what comes for them.
ghost use Rattle.std.specs.Prelude.{◌≡◌, ◌≢◌, ◌≤◌, ◌<◌, ◌∷◌, [], take, true, false, if◌then◌else◌, OnErr, OnOk, IsFalse, IsTrue, Some, Err, Ok};
ghost use Rattle.vdcp_frame.specs.Message.{AreOctets};
ghost use Rattle.vdcp_auto.specs.Plan.{plan_of};
ghost use Rattle.vdcp_auto.specs.Turn as turns;
ghost use Rattle.vdcp_drive.specs.Auto.{called, ended, receives};
ghost use Rattle.vdcp_drive.specs.Leaves.{HasKeptAndSent, HasListened, HasRun, HearsPiece, Notes, RunLeaves};
ghost use Rattle.vdcp_drive.specs.Lines.{is_broken, ran_of, ran_unless_ended};
ghost use Rattle.vdcp_drive.specs.Steps.{Chain, ended_notes};

use crate::ear::Ear;
use crate::hooks::{BrokenOff, Call, Hooks, KeepFault, Next};
use crate::line::{Line, Ran};
use std::marker::Model;
use vdcp_auto::{Controller, Heard, Source};
use vdcp_wire::{Came, PIECE, Wire, WireFault};

/// The automation's end of one playout channel: `run_with` sends commands and hears what comes, turn by turn.
#[derive(Drop)]
pub struct Driver<S: Source, E: Ear, W: Wire> {
    controller: Controller<S>,
    unit: u8,
    ear: E,
    wire: W,
    failed: bool,
}

impl<S: Source, E: Ear, W: Wire> Model for Driver<S, E, W> {
    ghost use Rattle.std.specs.Prelude.{◌≡◌, ◌≤◌, if◌then◌else◌};
    ghost use Rattle.vdcp_drive.specs.Auto.{Driving};

    ghost Value = { Driving S E W };

    ghost view = { λ d. record { controller = d.controller; unit = d.unit; ear = d.ear; wire = d.wire } };

    ghost invariant = { λ d. (d.unit ≤ 15) × (W.failures d.wire ≡ (if d.failed then 1 else 0)) };
}

impl<S: Source, E: Ear, W: Wire> Driver<S, E, W> {
    pub fn with_ear(controller: Controller<S>, unit: u8, ear: E, wire: W) -> Self
        requires unit { unit ≤ 15 }
        requires works { W.failures wire ≡ 0 }
        ensures { result ≡ record { controller = controller; unit = unit; ear = ear; wire = wire } }
    {
        Driver {
            controller,
            unit,
            ear,
            wire,
            failed: false,
        }
    }

    pub fn controller(&self) -> &Controller<S>
        ensures { result.now ≡ self.now.controller }
    {
        &self.controller
    }

    /// Runs an automation until the controller has ended, the other end has closed or this many turns were made. At
    /// each turn the hooks say what comes next. Each command and each call is kept before it goes out or is given; if
    /// it can't be, a later run tries again.
    pub fn run_with<H: Hooks<S>>(&mut self, turns: u64, hooks: &mut H) -> Result<Ran, BrokenOff>
        ensures leaves { RunLeaves S.items (record {
          does = W.does;
          asks = H.asks (plan_of S.items self.old.controller);
          adds = H.adds;
          loses = H.loses;
        }) E.fold W.failures turns self.old self.new (H.journal hooks.old) (H.journal hooks.new) result }
    {
        if self.failed {
            return Err(BrokenOff::Device);
        }
        let mut made = 0;
        'turns: while made < turns {
            let ran = run_turn(
                &mut self.controller,
                self.unit,
                &mut self.ear,
                &mut self.wire,
                hooks,
            );
            self.failed = is_broken(ran);
            if !is_spent(ran) {
                return ran;
            }
            made += 1;
        }
        match self.controller.outcome() {
            Some(_) => Ok(Ran::Ended),
            None => Ok(Ran::Spent),
        }
    }

    pub fn into_parts(self) -> (Controller<S>, E, W)
        ensures { result ≡ (self.controller, self.ear, self.wire) }
    {
        (self.controller, self.ear, self.wire)
    }
}

fn run_turn<S: Source, E: Ear, W: Wire, H: Hooks<S>>(
    controller: &mut Controller<S>,
    unit: u8,
    ear: &mut E,
    wire: &mut W,
    hooks: &mut H,
) -> Result<Ran, BrokenOff>
    requires unit { unit ≤ 15 }
    requires works { W.failures wire.old ≡ 0 }
    ensures runs { HasRun (record { does = W.does; asks = H.asks (plan_of S.items controller.old); adds = H.adds; loses = H.loses }) E.fold
        (plan_of S.items controller.old) unit 1
        (record { ear = ear.old; state = controller.old.state })
        (record { ear = ear.new; state = controller.new.state })
        (record { wire = wire.old; keep = H.journal hooks.old })
        (record { wire = wire.new; keep = H.journal hooks.new }) result }
    ensures controller { controller.new ≡ record controller.old { state = controller.new.state } }
    ensures failures { W.failures wire.new ≡ (if is_broken result then 1 else 0) }
{
    if controller.outcome().is_some() {
        return Ok(Ran::Ended);
    }
    match hooks.due(controller) {
        Next::GoOn => {}
        Next::Call(call) => {
            if let Err(KeepFault) = hooks.keep_call(call) {
                return Err(BrokenOff::Unkept);
            }
            give(controller, call);
            return Ok(Ran::Spent);
        }
        Next::Leave => return Err(BrokenOff::Left),
    }
    if let Err(fault) = send_next(controller, unit, ear, wire, hooks) {
        return Err(fault);
    }
    hooks.see(controller);
    match hear(controller, unit, ear, wire, hooks) {
        Ok(line) => Ok(ran_of(controller, line)),
        Err(WireFault) => Err(BrokenOff::Device),
    }
}

fn give<S: Source>(controller: &mut Controller<S>, call: Call)
    ensures { controller.new ≡ record controller.old { state = called call controller.old.state } }
{
    match call {
        Call::Take => controller.take(),
        Call::Stop => controller.stop(),
        Call::List(_) => {}
    }
}

// That the controller has ended goes before any other answer.
fn ran_of<S: Source>(controller: &Controller<S>, line: Line) -> Ran
    ensures { result ≡ ran_unless_ended (turns.outcome_of controller.now.state.stage) (ran_of line) }
{
    match (controller.outcome(), line) {
        (Some(_), _) => Ran::Ended,
        (None, Line::More | Line::Ended) => Ran::Spent,
        (None, Line::Closed) => Ran::Closed,
    }
}

pub(crate) fn is_spent(ran: Result<Ran, BrokenOff>) -> bool
    ensures spent { IsTrue result → ran ≡ Ok Ran.Spent }
    ensures not { IsFalse result → ran ≢ Ok Ran.Spent }
{
    matches!(ran, Ok(Ran::Spent))
}

fn is_broken(ran: Result<Ran, BrokenOff>) -> bool
    ensures { result ≡ is_broken ran }
{
    matches!(ran, Err(BrokenOff::Device))
}

fn send_next<S: Source, E: Ear, W: Wire, H: Hooks<S>>(
    controller: &mut Controller<S>,
    unit: u8,
    ear: &E,
    wire: &mut W,
    hooks: &mut H,
) -> Result<bool, BrokenOff>
    requires unit { unit ≤ 15 }
    requires works { W.failures wire.old ≡ 0 }
    ensures sends { HasKeptAndSent (record { does = W.does; asks = H.asks (plan_of S.items controller.old); adds = H.adds; loses = H.loses })
        E.fold.drops (plan_of S.items controller.old) unit controller.old.state controller.new.state
        (record { wire = wire.old; keep = H.journal hooks.old })
        (record { wire = wire.new; keep = H.journal hooks.new }) result }
    ensures controller { controller.new ≡ record controller.old { state = controller.new.state } }
    ensures failures { W.failures wire.new ≡ (if is_broken result then 1 else 0) }
{
    let Some(command) = controller.to_send() else {
        return Ok(false);
    };
    let bytes = command.encode(unit);
    if let Err(KeepFault) = hooks.keep_sent(unit, &command, bytes.as_slice()) {
        return Err(BrokenOff::Unkept);
    }
    if ear.drops() && wire.drop_waiting().is_err() {
        return Err(BrokenOff::Device);
    }
    controller.await_answer(&command);
    match wire.send(bytes.as_slice()) {
        Ok(()) => Ok(true),
        Err(WireFault) => Err(BrokenOff::Device),
    }
}

fn hear<S: Source, E: Ear, W: Wire, H: Hooks<S>>(
    controller: &mut Controller<S>,
    unit: u8,
    ear: &mut E,
    wire: &mut W,
    hooks: &mut H,
) -> Result<Line, WireFault>
    requires { W.failures wire.old ≡ 0 }
    ensures hears { HasListened W.does E.fold (plan_of S.items controller.old) unit
        (Notes H.adds E.fold (plan_of S.items controller.old) unit controller.old.state ear.old
        (H.journal hooks.old) (H.journal hooks.new)) controller.old.state ear.old wire.old
        controller.new.state ear.new wire.new result }
    ensures unnoted { OnErr result (H.journal hooks.new ≡ H.journal hooks.old) }
    ensures controller { controller.new ≡ record controller.old { state = controller.new.state } }
    ensures works { OnOk result (W.failures wire.new ≡ 0) }
    ensures failed { OnErr result (W.failures wire.new ≡ 1) }
{
    let mut buffer = [0; PIECE];
    match wire.listen(&mut buffer)? {
        Came::Bytes(n) => {
            hear_piece(controller, unit, ear, &buffer[..n], hooks);
            Ok(Line::More)
        }
        Came::Silence => {
            receive(controller, ear.rest(), hooks);
            Ok(Line::Ended)
        }
        Came::Closed => {
            receive(controller, ear.rest(), hooks);
            Ok(Line::Closed)
        }
    }
}

fn hear_piece<S: Source, E: Ear, H: Hooks<S>>(
    controller: &mut Controller<S>,
    unit: u8,
    ear: &mut E,
    piece: &[u8],
    hooks: &mut H,
)
    ensures hears { HearsPiece E.fold H.adds (plan_of S.items controller.old) unit piece.now controller.old.state
        ear.old (H.journal hooks.old) controller.new.state ear.new (H.journal hooks.new) }
    ensures octets { AreOctets piece.now }
    ensures controller { controller.new ≡ record controller.old { state = controller.new.state } }
{
    let mut at = 0;
    'piece: while at < piece.len() {
        let (taken, heard) = ear.read(unit, &piece[at..]);
        at += taken;
        let Some(heard) = heard else {
            continue;
        };
        receive(controller, Some(heard), hooks);
    }
}

fn receive<S: Source, H: Hooks<S>>(
    controller: &mut Controller<S>,
    came: Option<Heard>,
    hooks: &mut H,
)
    ensures state { controller.new.state ≡ receives (plan_of S.items controller.old) (came ∷ []) controller.old.state }
    ensures noted { Chain H.adds (ended_notes (ended (plan_of S.items controller.old) (came ∷ [])
        controller.old.state)) (H.journal hooks.old) (H.journal hooks.new) }
    ensures controller { controller.new ≡ record controller.old { state = controller.new.state } }
{
    if let Some(exchange) = controller.receive(came) {
        hooks.note_end(exchange.heard);
    }
}

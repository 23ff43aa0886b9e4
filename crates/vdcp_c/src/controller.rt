//! The controller as a struct, and the calls that it takes.
ghost use Rattle.std.specs.Prelude.{ℕ, ◌≡◌, ◌≢◌, ◌≤◌, pos, List, Some, None, IfSome, IsSome, length};
ghost use Rattle.vdcp_auto.specs.Plan.{Plan, View, plan_of};
ghost use Rattle.vdcp_auto.specs.Snapshots.{CanStand, state_in};
ghost use Rattle.vdcp_auto.specs.State.{State};
ghost use Rattle.vdcp_auto.specs.Heard.{heard_as};
ghost use Rattle.vdcp_auto.specs.Turn as turns;
ghost use Rattle.vdcp_auto.specs.declared.outcome.Outcome.{Outcome};
ghost use Rattle.vdcp_auto.specs.declared.phase.Phase.{Phase};
ghost use Rattle.vdcp_auto.specs.declared.snapshot.Snapshot.{Snapshot};
ghost use Rattle.vdcp_auto.specs.declared.snapshot.Standing.{Standing};
ghost use Rattle.vdcp_frame.specs.Message.{Content};
ghost use Rattle.vdcp_c.specs.Commands.{IsGiven};
ghost use Rattle.vdcp_c.specs.Controllers.{IsController, StandsAs, phase_code, phase_event, mode_code, outcome_code, outcome_event, IsStanding, plan_in};
ghost use Rattle.vdcp_c.specs.Lists.{items_of};
ghost use Rattle.vdcp_c.specs.Told.{IsContent, bad_message, bad_state, bad_value};

use crate::code::{BAD_MESSAGE, BAD_STATE, BAD_VALUE, OK};
use crate::command::{put_command, vdcp_command};
use crate::item::vdcp_item;
use crate::list::LentList;
use crate::message::{message_in, vdcp_message};
use vdcp_auto::{Controller, Heard, Mode, Outcome, Phase, Snapshot, Standing};

/// A controller: all that it knows, but for its list.
#[repr(C)]
#[derive(Clone, Copy)]
pub struct vdcp_controller {
    /// 1 plain, 2 confirming.
    pub mode: u8,
    pub port: u8,
    /// 1 ready to send, 2 awaiting an answer, 3 ended.
    pub standing: u8,
    /// The phase, or once it has ended the outcome.
    pub phase: u8,
    pub take: u8,
    pub stop: u8,
    pub unused: u16,
    pub limit: u32,
    pub unanswered: u32,
    pub tries: u32,
    pub unused2: u32,
    /// The event of the phase or the outcome; 0 if it names none.
    pub event: u64,
    /// How many events it takes for aired.
    pub settled: u64,
}

fn phase_of(code: u8, k: usize) -> Option<Phase>
    ensures some { IfSome result (λ p. (phase_code p ≡ code) × (phase_event p ≡ k)) }
    ensures accepts { (p : Phase) → phase_code p ≡ code → phase_event p ≡ k → result ≡ Some p }
{
    let phase = match code {
        1 => Phase::Open,
        2 => Phase::Select,
        3 => Phase::Seen,
        4 => return Some(Phase::Exists(k)),
        5 => return Some(Phase::Cue(k)),
        6 => return Some(Phase::Wait(k)),
        7 => return Some(Phase::Play(k)),
        8 => return Some(Phase::Probe(k)),
        9 => return Some(Phase::Check(k)),
        10 => Phase::Drain,
        11 => Phase::Close,
        12 => Phase::Halt,
        13 => Phase::HaltClose,
        _ => return None,
    };
    if k != 0 {
        return None;
    }
    Some(phase)
}

fn code_of_phase(phase: Phase) -> (u8, usize)
    ensures { (result.0 ≡ phase_code phase) × (result.1 ≡ phase_event phase) }
{
    match phase {
        Phase::Open => (1, 0),
        Phase::Select => (2, 0),
        Phase::Seen => (3, 0),
        Phase::Exists(k) => (4, k),
        Phase::Cue(k) => (5, k),
        Phase::Wait(k) => (6, k),
        Phase::Play(k) => (7, k),
        Phase::Probe(k) => (8, k),
        Phase::Check(k) => (9, k),
        Phase::Drain => (10, 0),
        Phase::Close => (11, 0),
        Phase::Halt => (12, 0),
        Phase::HaltClose => (13, 0),
    }
}

fn outcome_of(code: u8, k: usize) -> Option<Outcome>
    ensures some { IfSome result (λ o. (outcome_code o ≡ code) × (outcome_event o ≡ k)) }
    ensures accepts { (o : Outcome) → outcome_code o ≡ code → outcome_event o ≡ k → result ≡ Some o }
{
    let outcome = match code {
        1 => Outcome::Done,
        2 => Outcome::Stopped,
        3 => Outcome::Lost,
        4 => Outcome::Denied,
        5 => return Some(Outcome::Missing(k)),
        6 => return Some(Outcome::Refused(k)),
        7 => return Some(Outcome::Foreign(k)),
        8 => return Some(Outcome::Strange(k)),
        _ => return None,
    };
    if k != 0 {
        return None;
    }
    Some(outcome)
}

fn code_of_outcome(outcome: Outcome) -> (u8, usize)
    ensures { (result.0 ≡ outcome_code outcome) × (result.1 ≡ outcome_event outcome) }
{
    match outcome {
        Outcome::Done => (1, 0),
        Outcome::Stopped => (2, 0),
        Outcome::Lost => (3, 0),
        Outcome::Denied => (4, 0),
        Outcome::Missing(k) => (5, k),
        Outcome::Refused(k) => (6, k),
        Outcome::Foreign(k) => (7, k),
        Outcome::Strange(k) => (8, k),
    }
}

fn standing_of(c: &vdcp_controller) -> Option<Standing>
    ensures some { IfSome result (IsStanding c.now) }
    ensures accepts { (s : Standing) → IsStanding c.now s → result ≡ Some s }
{
    let k = c.event as usize;
    match c.standing {
        1 => Some(Standing::Ready(phase_of(c.phase, k)?)),
        2 => Some(Standing::Awaiting(phase_of(c.phase, k)?)),
        3 => Some(Standing::Ended(outcome_of(c.phase, k)?)),
        _ => None,
    }
}

fn snapshot_of(c: &vdcp_controller, count: usize) -> Option<Snapshot>
    ensures some { IfSome result (StandsAs c.now) }
    ensures can { IfSome result (CanStand count) }
    ensures accepts { (s : Snapshot) → StandsAs c.now s → CanStand count s → IsSome result }
{
    if c.take > 1 || c.stop > 1 {
        return None;
    }
    let snapshot = Snapshot {
        mode: mode_in(c.mode)?,
        port: c.port,
        limit: c.limit,
        standing: standing_of(c)?,
        take: c.take == 1,
        stop: c.stop == 1,
        unanswered: c.unanswered,
        settled: c.settled as usize,
        tries: c.tries,
    };
    if !snapshot.can_stand(count) {
        return None;
    }
    Some(snapshot)
}

fn put_snapshot(s: &Snapshot, c: &mut vdcp_controller)
    ensures { StandsAs c.new s.now }
{
    let (standing, (phase, event)) = match s.standing {
        Standing::Ready(phase) => (1, code_of_phase(phase)),
        Standing::Awaiting(phase) => (2, code_of_phase(phase)),
        Standing::Ended(outcome) => (3, code_of_outcome(outcome)),
    };
    c.mode = code_of_mode(s.mode);
    c.port = s.port;
    c.standing = standing;
    c.phase = phase;
    c.take = u8::from(s.take);
    c.stop = u8::from(s.stop);
    c.limit = s.limit;
    c.unanswered = s.unanswered;
    c.tries = s.tries;
    c.event = event as u64;
    c.settled = s.settled as u64;
}

fn controller_in<'a>(c: &vdcp_controller, list: &'a [vdcp_item]) -> Option<Controller<LentList<'a>>>
    ensures some { IfSome result (λ v. IsController c.now list.now (plan_of (λ s. items_of s.rows.now) v) v.state) }
    ensures list { IfSome result (λ v. v.source.rows.now ≡ list.now) }
    ensures accepts { (plan : Plan) (state : State) → IsController c.now list.now plan state → IsSome result }
{
    let snapshot = snapshot_of(c, list.len())?;
    Some(Controller::of_snapshot(LentList::of(list), &snapshot))
}

fn put(controller: &Controller<LentList>, c: &mut vdcp_controller)
    ensures { IsController c.new controller.now.source.rows.now
        (plan_of (λ s. items_of s.rows.now) controller.now) controller.now.state }
{
    put_snapshot(&controller.snapshot(), c);
}

#[unsafe(no_mangle)]
pub extern "C" fn vdcp_controller_new(
    c: &mut vdcp_controller,
    mode: u8,
    port: u8,
    limit: u32,
) -> i32
    ensures new { result ≡ pos 0 → (rows : List vdcp_item) → (plan : Plan) × IsController c.new rows plan turns.start
        × (mode_code plan.mode ≡ mode) × (plan.list ≡ items_of rows) × (plan.port ≡ port) × (plan.limit ≡ limit) }
    ensures accepts { 1 ≤ mode → mode ≤ 2 → 1 ≤ limit → limit ≤ 1000 → result ≡ pos 0 }
    ensures refused { result ≢ pos 0 → (result ≡ bad_value) × (c.new ≡ c.old) }
{
    let Some(mode) = mode_in(mode) else {
        return BAD_VALUE;
    };
    if limit < 1 || limit > 1000 {
        return BAD_VALUE;
    }
    put_snapshot(&Snapshot::new(mode, port, limit), c);
    OK
}

pub fn mode_in(code: u8) -> Option<Mode>
    ensures some { IfSome result (λ mode. mode_code mode ≡ code) }
    ensures accepts { 1 ≤ code → code ≤ 2 → IsSome result }
{
    match code {
        1 => Some(Mode::Plain),
        2 => Some(Mode::Confirming),
        _ => None,
    }
}

pub fn code_of_mode(mode: Mode) -> u8
    ensures { result ≡ mode_code mode }
{
    match mode {
        Mode::Plain => 1,
        Mode::Confirming => 2,
    }
}

/// 1: a command is given; 0: there is nothing to send.
#[unsafe(no_mangle)]
pub extern "C" fn vdcp_controller_tick(
    c: &mut vdcp_controller,
    list: &[vdcp_item],
    command: &mut vdcp_command,
) -> i32
    ensures ticked { result ≢ bad_state → (plan : Plan) × (state : State) × IsController c.old list.now plan state
        × IsController c.new list.now plan (turns.ticked state)
        × IsGiven (turns.given plan state) result command.old command.new }
    ensures accepts { (plan : Plan) (state : State) → IsController c.old list.now plan state → result ≢ bad_state }
    ensures refused { result ≡ bad_state → (c.new ≡ c.old) × (command.new ≡ command.old) }
{
    let Some(mut controller) = controller_in(c, list) else {
        return BAD_STATE;
    };
    let given = controller.tick();
    put(&controller, c);
    match given {
        None => 0,
        Some(given) => {
            put_command(&given, command);
            1
        }
    }
}

/// `unit` is the one that was asked.
#[unsafe(no_mangle)]
pub extern "C" fn vdcp_controller_hear(
    c: &mut vdcp_controller,
    list: &[vdcp_item],
    message: &vdcp_message,
    unit: u8,
) -> i32
    ensures heard { result ≡ pos 0 → (plan : Plan) × (state : State) × (content : Content)
        × IsController c.old list.now plan state × IsContent message.now content
        × IsController c.new list.now plan (turns.came_to plan (Some (heard_as unit content)) state) }
    ensures accepts { (plan : Plan) (state : State) (content : Content) → IsController c.old list.now plan state →
        IsContent message.now content → result ≡ pos 0 }
    ensures refused { result ≢ pos 0 → c.new ≡ c.old }
{
    let Some(mut controller) = controller_in(c, list) else {
        return BAD_STATE;
    };
    let Some(message) = message_in(message) else {
        return BAD_MESSAGE;
    };
    controller.hear(&Heard::of_message(&message, unit));
    put(&controller, c);
    OK
}

#[unsafe(no_mangle)]
pub extern "C" fn vdcp_controller_timeout(c: &mut vdcp_controller, list: &[vdcp_item]) -> i32
    ensures timed_out { result ≢ bad_state → (plan : Plan) × (state : State) × IsController c.old list.now plan state
        × (result ≡ pos 0) × IsController c.new list.now plan (turns.came_to plan None state) }
    ensures accepts { (plan : Plan) (state : State) → IsController c.old list.now plan state → result ≢ bad_state }
    ensures refused { result ≡ bad_state → c.new ≡ c.old }
{
    let Some(mut controller) = controller_in(c, list) else {
        return BAD_STATE;
    };
    controller.timeout();
    put(&controller, c);
    OK
}

#[unsafe(no_mangle)]
pub extern "C" fn vdcp_controller_take(c: &mut vdcp_controller, list: &[vdcp_item]) -> i32
    ensures taken { result ≢ bad_state → (plan : Plan) × (state : State) × IsController c.old list.now plan state
        × (result ≡ pos 0) × IsController c.new list.now plan (turns.taken state) }
    ensures accepts { (plan : Plan) (state : State) → IsController c.old list.now plan state → result ≢ bad_state }
    ensures refused { result ≡ bad_state → c.new ≡ c.old }
{
    let Some(mut controller) = controller_in(c, list) else {
        return BAD_STATE;
    };
    controller.take();
    put(&controller, c);
    OK
}

#[unsafe(no_mangle)]
pub extern "C" fn vdcp_controller_stop(c: &mut vdcp_controller, list: &[vdcp_item]) -> i32
    ensures stopped { result ≢ bad_state → (plan : Plan) × (state : State) × IsController c.old list.now plan state
        × (result ≡ pos 0) × IsController c.new list.now plan (turns.stopped state) }
    ensures accepts { (plan : Plan) (state : State) → IsController c.old list.now plan state → result ≢ bad_state }
    ensures refused { result ≡ bad_state → c.new ≡ c.old }
{
    let Some(mut controller) = controller_in(c, list) else {
        return BAD_STATE;
    };
    controller.stop();
    put(&controller, c);
    OK
}

//! How a row is put to a server, step by step.
ghost use Rattle.std.specs.Prelude.{◌≡◌, ◌≤◌, IfOk, IfSome, IsSome, None, OnOk};
ghost use Rattle.vdcp_probe.specs.Following.{IsForeseen, IsUnforeseen, LacksCut};
ghost use Rattle.vdcp_probe.specs.Walks.{is_reached};

use crate::asking::Asker;
use crate::follower::Follower;
use crate::naming::Naming;
use crate::reading::difference;
use crate::report::{Cause, Difference};
use crate::row::Ask::{Close, Cue, Open, Select, Status, Stop};
use crate::row::Clip::First;
use crate::row::Number::Own;
use crate::row::Step::Ask;
use crate::row::{Awaited, Row, Start, Step, steps};
use std::alloc::{AllocError, Global};
use std::rt::Clock;
use vdcp_port::Catalogue;
use vdcp_text::Failure;
use vdcp_wire::Wire;
use vdcp_words::state::{CUE_DONE, PLAYING};

const MOST_POLLS: u32 = 250;

// They lead there from any state of a port.
fn steps_to(start: Start) -> &'static [Step] {
    match start {
        Start::Closed =>
            steps! { [Ask(Open(Own))] [Ask(Select(Own))] [Ask(Stop)] [Ask(Close(Own))] },
        Start::Open =>
            steps! { [Ask(Open(Own))] [Ask(Select(Own))] [Ask(Stop)] [Ask(Close(Own))] [Ask(Open(Own))] },
        Start::Selected => steps! { [Ask(Open(Own))] [Ask(Select(Own))] [Ask(Stop)] },
        Start::Cued =>
            steps! { [Ask(Open(Own))] [Ask(Select(Own))] [Ask(Stop)] [Ask(Cue(First))] until CueDone },
    }
}

/// Puts a row to a server whose port has these clips, up to the first difference.
pub fn walk_row<C: Catalogue, R: Clock + AllocGlobal, W: Wire>(
    catalogue: &C,
    naming: &Naming,
    row: &Row,
    asker: &mut Asker<'_, R, W>,
) -> Result<Option<Difference>, Failure<'static>>
    requires unit { naming.now.unit ≤ 15 }
    requires works { W.failures asker.old.wire ≡ 0 }
    ensures works { OnOk result (W.failures asker.new.wire ≡ 0) }
{
    let mut steps = Vec::from_slice(asker.alloc(), steps_to(row.start))?;
    steps.extend_from_slice(row.steps)?;
    walk(catalogue, naming, steps.as_slice(), asker)
}

fn walk<C: Catalogue, R: Clock + AllocGlobal, W: Wire>(
    catalogue: &C,
    naming: &Naming,
    steps: &[Step],
    asker: &mut Asker<'_, R, W>,
) -> Result<Option<Difference>, Failure<'static>>
    requires unit { naming.now.unit ≤ 15 }
    requires works { W.failures asker.old.wire ≡ 0 }
    ensures works { OnOk result (W.failures asker.new.wire ≡ 0) }
{
    let mut follower = Follower::new(catalogue, naming.unit, naming.port);
    let mut burst = Vec::new(asker.alloc());
    for k in 0..steps.len() {
        let step = &steps[k];
        let differs = take_step(naming, step, &mut burst, &mut follower, asker)?;
        if differs.is_some() {
            return Ok(differs);
        }
    }
    Ok(None)
}

fn take_step<C: Catalogue, R: Clock + AllocGlobal, W: Wire>(
    naming: &Naming,
    step: &Step,
    burst: &mut Vec<u8>,
    follower: &mut Follower<C>,
    asker: &mut Asker<'_, R, W>,
) -> Result<Option<Difference>, Failure<'static>>
    requires unit { naming.now.unit ≤ 15 }
    requires works { W.failures asker.old.wire ≡ 0 }
    ensures works { OnOk result (W.failures asker.new.wire ≡ 0) }
{
    match step {
        Step::Send => {
            let differs = hold(burst.as_slice(), follower, asker)?;
            burst.clear();
            Ok(differs)
        }
        Step::Await(awaited) => wait(naming, *awaited, follower, asker),
        _ => {
            naming.add_step(step, burst)?;
            Ok(None)
        }
    }
}

fn wait<C: Catalogue, R: Clock + AllocGlobal, W: Wire>(
    naming: &Naming,
    awaited: Awaited,
    follower: &mut Follower<C>,
    asker: &mut Asker<'_, R, W>,
) -> Result<Option<Difference>, Failure<'static>>
    requires unit { naming.now.unit ≤ 15 }
    requires works { W.failures asker.old.wire ≡ 0 }
    ensures works { OnOk result (W.failures asker.new.wire ≡ 0) }
{
    let alloc = asker.alloc();
    let mut status = Vec::new(alloc);
    naming.add_ask(&Status(0x01), &mut status)?;
    let status = status.as_slice();
    'polls: for _ in 0..MOST_POLLS {
        let differs = hold(status, follower, asker)?;
        if differs.is_some() {
            return Ok(differs);
        }
        if is_reached(awaited, follower.status_byte()) {
            return Ok(None);
        }
    }
    let answers = follower.may_come(alloc, status)?;
    let text = overdue(alloc, status, answers.as_slice())?;
    let cause = Cause::Overdue;
    Ok(Some(Difference { text, cause }))
}

fn is_reached(awaited: Awaited, state: u8) -> bool
    ensures { result ≡ is_reached awaited state }
{
    match awaited {
        Awaited::CueDone => state & CUE_DONE != 0,
        Awaited::ClipEnded => state & PLAYING == 0,
    }
}

// A state that may come came each time, but never the awaited one.
fn overdue(alloc: Global, status: &[u8], answers: &[Vec<u8>]) -> Result<String, AllocError> {
    match answers {
        [first, rest @ ..] => difference(alloc, status, first.as_slice(), rest),
        [] => Ok(String::new(alloc)),
    }
}

fn hold<C: Catalogue, R: Clock + AllocGlobal, W: Wire>(
    burst: &[u8],
    follower: &mut Follower<C>,
    asker: &mut Asker<'_, R, W>,
) -> Result<Option<Difference>, Failure<'static>>
    requires works { W.failures asker.old.wire ≡ 0 }
    ensures works { OnOk result (W.failures asker.new.wire ≡ 0) }
{
    let came = asker.ask(burst)?.whole()?;
    Ok(hold_answer(asker.alloc(), burst, came.as_slice(), follower)?)
}

/// Compares what came for a burst with all that a right port may answer. If it is one of these, the follower goes on
/// behind the burst; if not, this gives the difference.
pub fn hold_answer<C: Catalogue>(
    alloc: Global,
    burst: &[u8],
    came: &[u8],
    follower: &mut Follower<C>,
) -> Result<Option<Difference>, AllocError>
    ensures differs { IfOk result (λ found. IsSome found → IsUnforeseen follower.old burst.now came.now) }
    ensures awaiting { IfOk result (λ found. IfSome found (λ difference. difference.cause ≡ Cause.Awaiting →
        LacksCut follower.old burst.now came.now)) }
    ensures kept { IfOk result (λ found. found ≡ None → IsForeseen follower.old burst.now came.now follower.new) }
{
    if let Some(next) = follower.after(alloc, burst, came)? {
        *follower = next;
        return Ok(None);
    }
    let answers = follower.may_come(alloc, burst)?;
    let text = difference(alloc, burst, came, answers.as_slice())?;
    let is_late = may_be_late(came, answers.as_slice());
    let cause = cause_of(alloc, burst, came, follower, is_late)?;
    Ok(Some(Difference { text, cause }))
}

fn cause_of<C: Catalogue>(
    alloc: Global,
    burst: &[u8],
    came: &[u8],
    follower: &Follower<C>,
    is_late: bool,
) -> Result<Cause, AllocError>
    ensures { IfOk result (λ cause. cause ≡ Cause.Awaiting → LacksCut follower.now burst.now came.now) }
{
    let mut whole = Vec::from_slice(alloc, came)?;
    whole.extend_from_slice(&[0x05, 0x80])?;
    match follower.after(alloc, burst, whole.as_slice())? {
        Some(_) => Ok(Cause::Awaiting),
        None if is_late => Ok(Cause::Late),
        None => Ok(Cause::Otherwise),
    }
}

// What is late may be its own rest, or the rest of an answer before.
fn may_be_late(came: &[u8], answers: &[Vec<u8>]) -> bool {
    for k in 0..answers.len() {
        let answer = answers[k].as_slice();
        if answer.starts_with(came) || (!answer.is_empty() && came.ends_with(answer)) {
            return true;
        }
    }
    false
}

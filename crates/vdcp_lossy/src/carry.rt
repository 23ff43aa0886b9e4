//! How bursts are carried both ways, exchange by exchange.
ghost use Rattle.std.specs.Io.KnownBytes.{Appends, Keeps};
ghost use Rattle.std.specs.Prelude.{◌≡◌, ◌⊎◌, ◌<◌, ◌≤◌, IfOk, OnOk, length};
ghost use Rattle.vdcp_frame.specs.Message.{spelling};
ghost use Rattle.vdcp_lossy.specs.Brought.{HasSome};
ghost use Rattle.vdcp_lossy.specs.Carried.{GoesUp, PassesOn, sent_by};
ghost use Rattle.vdcp_lossy.specs.Doings.{adds_part, goes_on, joined, part_on, receipt_message};

use crate::doing::{Doing, HeldBurst, Receipt};
use crate::session::{Brought, CarryEnd, CarryFault, Session};
use arrayvec::ArrayVec;
use std::io;
use std::rt::Clock;
use std::time::Instant;
use vdcp_auto::Way;
use vdcp_frame::write;
use vdcp_wire::Wire;

/// Carries bursts until either end closes, or the turns are used up.
pub fn carry<R: Clock, A: Wire, S: Wire, W: io::Write>(
    session: &mut Session<R>,
    automation: &mut A,
    server: &mut S,
    out: &mut W,
) -> Result<CarryEnd, CarryFault>
    requires automation { A.failures automation.old ≡ 0 }
    requires server { S.failures server.old ≡ 0 }
{
    let mut command = HeldBurst::new();
    'bursts: while session.left() > 0 {
        let brought = session.receive(automation, &mut command)?;
        if let Some(end) = take(session, automation, server, brought, &command, out)? {
            return Ok(end);
        }
    }
    Ok(CarryEnd::Spent)
}

fn take<R: Clock, A: Wire, S: Wire, W: io::Write>(
    session: &mut Session<R>,
    automation: &mut A,
    server: &mut S,
    brought: Brought,
    command: &HeldBurst,
    out: &mut W,
) -> Result<Option<CarryEnd>, CarryFault>
    requires automation { A.failures automation.old ≡ 0 }
    requires server { S.failures server.old ≡ 0 }
    requires some { HasSome brought command.now.items }
    ensures no_more { session.new.left ≤ session.old.left }
    ensures automation { OnOk result (A.failures automation.new ≡ 0) }
    ensures server { OnOk result (S.failures server.new ≡ 0) }
{
    match brought {
        Brought::Nothing => Ok(None),
        Brought::Over(end) => Ok(Some(end)),
        Brought::Long => {
            session.count_command();
            session.tell(Way::Down, &Doing::Lost, command.as_slice(), out)?;
            Ok(None)
        }
        Brought::Burst(began) => {
            session.count_command();
            let mut answer = HeldBurst::new();
            let brought = ask(session, server, command, began, &mut answer, out)?;
            answer_with(session, automation, brought, &answer, began, out)
        }
    }
}

// What waits from the exchange before is dropped first.
fn ask<R: Clock, S: Wire, W: io::Write>(
    session: &mut Session<R>,
    server: &mut S,
    command: &HeldBurst,
    began: Instant,
    answer: &mut HeldBurst,
    out: &mut W,
) -> Result<Brought, CarryFault>
    requires server { S.failures server.old ≡ 0 }
    requires some { 0 < length command.now.items }
    ensures sent { OnOk result (PassesOn Way.Down command.now.items (S.told server.old) (S.told server.new)) }
    ensures no_more { session.new.left ≤ session.old.left }
    ensures some { IfOk result (λ brought. HasSome brought answer.new.items) }
    ensures server { OnOk result (S.failures server.new ≡ 0) }
{
    server.drop_waiting()?;
    let doing = session.doing(Way::Down, command, began)?;
    send_once(server, &doing, command.as_slice())?;
    session.tell(Way::Down, &doing, command.as_slice(), out)?;
    match doing {
        Doing::Lost | Doing::Late => Ok(Brought::Nothing),
        Doing::Copied => ask_twice(session, server, command, began, answer),
        Doing::Through | Doing::Cut(_) | Doing::Damaged(_) => session.receive(server, answer),
        // (a command is never forged)
        Doing::Forged(_) => session.receive(server, answer),
    }
}

// Takes the answer, sends the copy of the command, and takes the answer to that. If it is too late for the copy by then,
// the first answer is too late as well.
fn ask_twice<R: Clock, S: Wire>(
    session: &mut Session<R>,
    server: &mut S,
    command: &HeldBurst,
    began: Instant,
    answer: &mut HeldBurst,
) -> Result<Brought, CarryFault>
    requires server { S.failures server.old ≡ 0 }
    ensures sent { OnOk result (Keeps (sent_by (S.told server.old)) (sent_by (S.told server.new))
        ⊎ Appends (sent_by (S.told server.old)) (sent_by (S.told server.new)) command.now.items) }
    ensures no_more { session.new.left ≤ session.old.left }
    ensures some { IfOk result (λ brought. HasSome brought answer.new.items) }
    ensures server { OnOk result (S.failures server.new ≡ 0) }
{
    let first = session.receive(server, answer)?;
    if let Brought::Over(_) = first {
        return Ok(first);
    }
    if session.is_late(began)? {
        return Ok(first);
    }
    server.send(command.as_slice())?;
    session.receive(server, answer)
}

fn answer_with<R: Clock, A: Wire, W: io::Write>(
    session: &mut Session<R>,
    automation: &mut A,
    brought: Brought,
    answer: &HeldBurst,
    began: Instant,
    out: &mut W,
) -> Result<Option<CarryEnd>, CarryFault>
    requires automation { A.failures automation.old ≡ 0 }
    requires some { HasSome brought answer.now.items }
    ensures sent { OnOk result (GoesUp brought answer.now.items (A.told automation.old) (A.told automation.new)) }
    ensures left { session.new.left ≡ session.old.left }
    ensures automation { OnOk result (A.failures automation.new ≡ 0) }
{
    match brought {
        Brought::Over(end) => Ok(Some(end)),
        Brought::Nothing => match session.forged(began)? {
            Some(doing) => go_up(session, automation, &doing, &[], out),
            None => Ok(None),
        },
        Brought::Long => {
            session.count_answer();
            go_up(session, automation, &Doing::Lost, answer.as_slice(), out)
        }
        Brought::Burst(_) => {
            session.count_answer();
            let doing = session.doing(Way::Up, answer, began)?;
            go_up(session, automation, &doing, answer.as_slice(), out)
        }
    }
}

fn go_up<R: Clock, A: Wire, W: io::Write>(
    session: &mut Session<R>,
    automation: &mut A,
    doing: &Doing,
    came: &[u8],
    out: &mut W,
) -> Result<Option<CarryEnd>, CarryFault>
    requires automation { A.failures automation.old ≡ 0 }
    ensures sent { OnOk result (Appends (sent_by (A.told automation.old)) (sent_by (A.told automation.new))
        (joined (goes_on doing.now came.now))) }
    ensures left { session.new.left ≡ session.old.left }
    ensures automation { OnOk result (A.failures automation.new ≡ 0) }
{
    send_once(automation, doing, came)?;
    if let Doing::Copied = doing {
        automation.send(came)?;
    }
    session.tell(Way::Up, doing, came, out)?;
    Ok(None)
}

fn send_once<W: Wire>(wire: &mut W, doing: &Doing, came: &[u8]) -> Result<(), CarryFault>
    requires { W.failures wire.old ≡ 0 }
    ensures sent { OnOk result (W.told wire.new ≡ adds_part (part_on doing.now came.now) (W.told wire.old)) }
    ensures works { OnOk result (W.failures wire.new ≡ 0) }
{
    match doing {
        Doing::Through | Doing::Copied => Ok(wire.send(came)?),
        Doing::Lost | Doing::Late => Ok(()),
        Doing::Cut(count) => Ok(wire.send(&came[..(*count).min(came.len())])?),
        Doing::Damaged(bytes) => Ok(wire.send(bytes.as_slice())?),
        Doing::Forged(receipt) => Ok(wire.send(bytes_of(*receipt).as_slice())?),
    }
}

fn bytes_of(receipt: Receipt) -> ArrayVec<u8, 2>
    ensures { result.items ≡ spelling (receipt_message receipt) }
{
    let mut bytes = ArrayVec::new();
    write(&receipt.message(), &mut bytes).unwrap();
    bytes
}

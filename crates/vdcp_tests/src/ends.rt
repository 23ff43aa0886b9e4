//! Both ends over a wire in memory, without hooks. The functions promise nothing of what the ends do, so the proof of a test
//! needn't go through the clauses of each call.
ghost use Rattle.std.specs.Prelude.{◌≡◌, false, IfOk};

use crate::expecting::expect;
use crate::lists::list_of;
use std::alloc::{AllocError, Global};
use std::test::Fail;
use vdcp_auto::{Controller, Outcome};
use vdcp_drive::{AtSilences, DriveFault, Driver, Server, TurnsEnd, Unhooked, Unwatched};
use vdcp_port::Port;
use vdcp_wire::{Entry, ScriptWire};

/// A wire on which these pieces come, of which an empty one is a silence and the one at this place waits before a command; then
/// the other end closes.
fn wire_of(alloc: Global, pieces: &[&[u8]], stale: usize) -> Result<ScriptWire<Global>, AllocError>
    ensures { IfOk result (λ wire. wire.failed ≡ false) }
{
    let mut entries = Vec::new(alloc);
    for (k, piece) in pieces.iter().enumerate() {
        entries.push(if piece.is_empty() {
            Entry::Silence
        } else if k == stale {
            Entry::Stale(Vec::from_slice(alloc, piece)?)
        } else {
            Entry::Came(Vec::from_slice(alloc, piece)?)
        })?;
    }
    Ok(ScriptWire::new(alloc, entries))
}

// OPEN, SELECT in two pieces, and STATUS. GRANTED, ACK and the state of a port that does nothing.
static ASKED: [&[u8]; 7] = [
    b"\x02\x04\x30\x01\x01\x01\xCD",
    b"",
    b"\x02\x03\x20",
    b"\x22\x01\xBD",
    b"",
    b"\x02\x03\x30\x05\x01\xCA",
    b"",
];

const ANSWERED: &[u8] = b"\x02\x03\x30\x81\x01\x4E\x04\x02\x04\x30\x85\x01\x01\x49";

/// How a new server's turns end where this call of its wire fails after two bytes, and what it sent. Call 0 is none.
fn served(alloc: Global, call: u64) -> Result<(Result<TurnsEnd, DriveFault>, Vec<u8>), AllocError> {
    let mut wire = wire_of(alloc, &ASKED, ASKED.len())?;
    wire.fail_at(call, 2);
    let mut server = Server::new(Port::new([], 0, 1), wire);
    let end = server.serve(100, &mut Unwatched);
    Ok((end, Vec::from_slice(alloc, server.wire().sent())?))
}

// (the second call sends the first answer)
#[test]
fn a_server_answers(rt: HostRuntime) -> Result<(), Fail> {
    let (end, sent) = served(rt.alloc(), 0)?;
    expect(
        &rt,
        "the server",
        &(end, sent.as_slice()),
        &(Ok(TurnsEnd::Closed), ANSWERED),
    );
    let (end, sent) = served(rt.alloc(), 2)?;
    expect(
        &rt,
        "the server whose wire fails",
        &(end, sent.as_slice()),
        &(Err(DriveFault::Device), b"\x02\x03".as_slice()),
    );
    Ok(())
}

// What comes for OPEN, SELECT, STATUS and CLOSE, of which all are answered. A NAK waits before SELECT.
static CAME: [&[u8]; 9] = [
    b"\x02\x03\x30\x81\x01\x4E",
    b"",
    b"\x05\x01",
    b"\x04",
    b"",
    b"\x02\x04\x30\x85\x01\x01\x49",
    b"",
    b"\x04",
    b"",
];

const COMMANDS: &[u8] =
    b"\x02\x04\x30\x01\x01\x01\xCD\x02\x03\x20\x22\x01\xBD\x02\x03\x30\x05\x01\xCA\x02\x03\x20\x21\x01\xBE";

/// How a new automation of no clips ends, what it sent, and how much of that before each drop.
fn ran(alloc: Global) -> Result<(Option<Outcome>, Vec<u8>, Vec<usize>), Fail> {
    let list = list_of(alloc, b"")?;
    let wire = wire_of(alloc, &CAME, 2)?;
    let mut auto = Driver::with_ear(Controller::new(&list, 1, 3), 0, AtSilences::new(), wire);
    auto.run_with(100, &mut Unhooked)?;
    let (controller, _, wire) = auto.into_parts();
    Ok((
        controller.outcome(),
        Vec::from_slice(alloc, wire.sent())?,
        Vec::from_slice(alloc, wire.drops())?,
    ))
}

#[test]
fn an_automation_drops_what_waits(rt: HostRuntime) -> Result<(), Fail> {
    let (outcome, sent, drops) = ran(rt.alloc())?;
    let dropped = [0, 7, 13, 19];
    expect(
        &rt,
        "the automation",
        &(outcome, sent.as_slice(), drops.as_slice()),
        &(Some(Outcome::Done), COMMANDS, dropped.as_slice()),
    );
    Ok(())
}

//! Calls of lists, and of controllers without a wire, that the program doesn't make.
use crate::expecting::expect;
use std::alloc::{AllocError, Global};
use std::test::Fail;
use vdcp_auto::{Exchange, Heard, Input, rehearse, rehearse_confirming};
use vdcp_list::{List, ListFault, read_list};
use vdcp_value::Rate;
use vdcp_words::{Command, Reply};

// (These promise nothing, so the proof of a test needn't go through the clauses of each call.)
pub fn list_of(alloc: Global, text: &[u8]) -> Result<List, ListFault> {
    read_list(alloc, text, Rate::F25)
}

/// How many exchanges a rehearsal has, and the last one.
fn rehearsed(
    alloc: Global,
    list: &List,
    confirms: bool,
    inputs: &[Input],
) -> Result<(usize, Option<Exchange>), AllocError> {
    let log = if confirms {
        rehearse_confirming(alloc, list, 1, 3, inputs)?
    } else {
        rehearse(alloc, list, 1, 3, inputs)?
    };
    Ok((log.len(), log.last().copied()))
}

fn exchange(command: Command, reply: Reply) -> Option<Exchange> {
    let heard = Some(Heard::Reply(reply));
    Some(Exchange { command, heard })
}

#[test]
fn a_list_is_seen_and_rehearsed(rt: HostRuntime) -> Result<(), Fail> {
    let list = list_of(rt.alloc(), b"\"A,B\"\nCLIP0001\n")?;
    let ends = [3, 11];
    expect(
        &rt,
        "the texts of the IDs",
        &(list.text(), list.ends()),
        &("A,BCLIP0001", ends.as_slice()),
    );

    // Each input ends an exchange.
    let list = list_of(rt.alloc(), b"CLIP0001\n")?;
    let granted = Input::Heard(Heard::Reply(Reply::Opened(true)));
    let ack = Input::Heard(Heard::Reply(Reply::Ack));
    let idle = Input::Heard(Heard::Reply(Reply::State(1, Some(0x01))));
    let present = Input::Heard(Heard::Reply(Reply::Present(true)));
    let cued = Input::Heard(Heard::Reply(Reply::State(1, Some(0x80))));
    let nothing = Input::Heard(Heard::Reply(Reply::Active(None)));
    let silence = Input::Silence;
    let plain = [granted, ack, present, ack, cued, ack, nothing, idle, ack];
    let confirming = [
        granted, silence, idle, present, silence, cued, silence, idle, nothing,
    ];
    let seen = (
        rehearsed(rt.alloc(), &list, false, &plain)?,
        rehearsed(rt.alloc(), &list, true, &confirming)?,
    );
    let wanted = (
        (9, exchange(Command::Close(1), Reply::Ack)),
        (9, exchange(Command::ActiveId, Reply::Active(None))),
    );
    expect(&rt, "both rehearsals", &seen, &wanted);
    Ok(())
}

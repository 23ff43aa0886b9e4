//! The rows of the program, each a case of the port's table. Those by which a list can be false stand in `harmful`.
use crate::row::Ask::{
    Active, Close, Cue, CuePart, Exists, Open, Play, Select, Size, Status, Stop,
};
use crate::row::Clip::{First, Second, Unknown};
use crate::row::Number::{Other, Own};
use crate::row::Row;
use crate::row::Step::{Ask, Bytes, Cut, Damaged, Elsewhere, Framed};
use std::alloc::{AllocError, Global};
use vdcp_text::Failure;

// A row has a name, what the port is brought to, and the bursts that it gets then.
macro_rules! rows {
    ($group:ident; $($name:literal $start:ident $([$($step:expr),+] $(until $awaited:ident)?)+;)+) => {
        [$($crate::row::Row {
            name: $name,
            group: $crate::row::Group::$group,
            start: $crate::row::Start::$start,
            steps: $crate::row::steps! { $([$($step),+] $(until $awaited)?)+ },
        }),+]
    };
}

mod harmful;

use harmful::{UNAIRED, UNLISTED};

pub(crate) const START: [u8; 4] = [0x00, 0x00, 0x00, 0x00];

pub(crate) const FRAME: [u8; 4] = [0x01, 0x00, 0x00, 0x00];

const DAY: [u8; 4] = [0x23, 0x59, 0x59, 0x23];

const NO_TIME: [u8; 4] = [0xff, 0xff, 0xff, 0xff];

const UNSELECTED: [Row; 19] = rows! {
    Safe;
    "closed-open" Closed [Ask(Open(Own))];
    "closed-open-other" Closed [Ask(Open(Other))];
    "closed-close" Closed [Ask(Close(Own))];
    "closed-close-other" Closed [Ask(Close(Other))];
    "closed-select" Closed [Ask(Select(Own))];
    "closed-cue" Closed [Ask(Cue(First))];
    "closed-stop" Closed [Ask(Stop)];
    "closed-active" Closed [Ask(Active)];
    "closed-exists-known" Closed [Ask(Exists(First))];
    "closed-exists-unknown" Closed [Ask(Exists(Unknown))];
    "closed-size-known" Closed [Ask(Size(First))];
    "closed-size-unknown" Closed [Ask(Size(Unknown))];
    "open-open" Open [Ask(Open(Own))];
    "open-close" Open [Ask(Close(Own))];
    "open-select-other" Open [Ask(Select(Other))];
    "open-cue" Open [Ask(Cue(First))];
    "open-stop" Open [Ask(Stop)];
    "open-active" Open [Ask(Active)];
    "open-exists" Open [Ask(Exists(First))];
};

const SELECTED: [Row; 18] = rows! {
    Safe;
    "selected-open" Selected [Ask(Open(Own))] [Ask(Status(1))];
    "selected-open-other" Selected [Ask(Open(Other))] [Ask(Status(1))];
    "selected-select" Selected [Ask(Select(Own))] [Ask(Status(1))];
    "selected-select-other" Selected [Ask(Select(Other))] [Ask(Status(1))];
    "close-other-keeps" Cued [Ask(Close(Other))] [Ask(Status(1))];
    "open-keeps" Cued [Ask(Open(Own))] [Ask(Select(Own))] [Ask(Status(1))];
    "stop-ends-clip" Cued [Ask(Play)] [Ask(Stop), Ask(Status(1)), Ask(Active)];
    "exists-known" Selected [Ask(Exists(First))];
    "exists-unknown" Selected [Ask(Exists(Unknown))];
    "size-known" Selected [Ask(Size(Second))];
    "size-unknown" Selected [Ask(Size(Unknown))];
    "questions-keep-cue" Cued [Ask(Exists(First))] [Ask(Size(First))] [Ask(Active)] [Ask(Status(1))];
    "active-none" Selected [Ask(Active)];
    "state-unasked" Selected [Ask(Status(0))];
    "state-among-others" Selected [Ask(Status(0xff))];
    "part-too-long" Selected [Ask(CuePart(First, START, DAY))] [Ask(Status(1))];
    "part-without-frames" Selected [Ask(CuePart(First, START, START))] [Ask(Status(1))];
    "part-without-time" Selected [Ask(CuePart(First, NO_TIME, FRAME))] [Ask(Status(1))];
};

const BURSTS: [Row; 18] = rows! {
    Safe;
    "unknown-type" Selected [Framed(7, 0x01, &[])];
    "unknown-code" Selected [Framed(2, 0x7f, &[])];
    "stop-with-data" Selected [Framed(1, 0x00, &[0])];
    "open-without-lock" Selected [Framed(3, 0x01, &[1])];
    "status-without-bitmap" Selected [Framed(3, 0x05, &[])];
    "longest-message" Selected [Framed(2, 0x24, &[0x41; 253])];
    "ack-unanswered" Selected [Bytes(&[0x04])];
    "nak-unanswered" Selected [Bytes(&[0x05, 0x01])];
    "other-unit-status" Selected [Elsewhere(Status(1))];
    "other-unit-unknown" Selected [Elsewhere(Exists(Unknown))];
    "several-commands" Selected [Ask(Exists(First)), Ask(Size(Second)), Ask(Exists(Unknown))];
    "bad-start" Selected [Bytes(&[0xff])];
    "bad-count" Selected [Bytes(&[0x02, 0x00])];
    "bad-sum" Selected [Damaged(Exists(First))];
    "cut-after-start" Selected [Bytes(&[0x02])];
    "cut-before-sum" Selected [Cut(Exists(First))];
    "answers-before-fault" Selected [Ask(Exists(First)), Damaged(Size(First))];
    "answers-before-cut" Selected [Ask(Exists(First)), Cut(Size(First))];
};

/// The rows, those that can falsify no list first.
pub fn rows(alloc: Global) -> Result<Vec<Row>, Failure<'static>> {
    let mut rows = Vec::new(alloc);
    add_unselected(&mut rows)?;
    add_selected(&mut rows)?;
    add_bursts(&mut rows)?;
    add_unaired(&mut rows)?;
    add_unlisted(&mut rows)?;
    Ok(rows)
}

// Each table has a function of its own, since together they are too much for one proof.
fn add_unselected(rows: &mut Vec<Row>) -> Result<(), AllocError> {
    rows.extend_from_slice(&UNSELECTED)
}

fn add_selected(rows: &mut Vec<Row>) -> Result<(), AllocError> {
    rows.extend_from_slice(&SELECTED)
}

fn add_bursts(rows: &mut Vec<Row>) -> Result<(), AllocError> {
    rows.extend_from_slice(&BURSTS)
}

fn add_unaired(rows: &mut Vec<Row>) -> Result<(), AllocError> {
    rows.extend_from_slice(&UNAIRED)
}

fn add_unlisted(rows: &mut Vec<Row>) -> Result<(), AllocError> {
    rows.extend_from_slice(&UNLISTED)
}

//! Worked rows of time codes.
use crate::expecting::expect;
use arrayvec::ArrayString;
use std::process::Abort;
use vdcp_value::{Field, Rate, TcFault, Timecode};

static TIME_CODES: [(Rate, &str, u32, [u8; 4]); 8] = [
    (Rate::F24, "00:00:01:00", 24, [0x00, 0x01, 0x00, 0x00]),
    (Rate::F25, "00:00:10:00", 250, [0x00, 0x10, 0x00, 0x00]),
    (
        Rate::F25,
        "23:59:59:24",
        2_159_999,
        [0x24, 0x59, 0x59, 0x23],
    ),
    (Rate::F30, "00:01:00:00", 1_800, [0x00, 0x00, 0x01, 0x00]),
    (Rate::D30, "00:00:59;29", 1_799, [0x29, 0x59, 0x00, 0x00]),
    (Rate::D30, "00:01:00;02", 1_800, [0x02, 0x00, 0x01, 0x00]),
    (Rate::D30, "00:10:00;00", 17_982, [0x00, 0x00, 0x10, 0x00]),
    (
        Rate::D30,
        "23:59:59;29",
        2_589_407,
        [0x29, 0x59, 0x59, 0x23],
    ),
];

// The time code of this number at this rate has these bytes and this text, and is read of both. (It promises nothing, so the
// proof of the test needn't go through the clauses of each call.)
fn is_time_code(rt: &impl Abort, rate: Rate, text: &str, number: u32, bytes: [u8; 4]) {
    let timecode = Timecode::from_bcd(rate, bytes);
    let mut shown = ArrayString::new();
    shown.push_str("stood here");
    if let Ok(timecode) = timecode {
        timecode.show(&mut shown);
    }
    let seen = (
        timecode,
        Timecode::parse(rate, text),
        Timecode::from_frames(rate, number),
        shown.as_str(),
    );
    let found = match timecode {
        Ok(timecode) => Some((timecode.frames(), timecode.to_bcd())),
        Err(_) => None,
    };
    expect(rt, text, &found, &Some((number, bytes)));
    expect(rt, text, &seen, &(timecode, timecode, timecode.ok(), text));
}

static DAYS: [(Rate, u32); 4] = [
    (Rate::F24, 2_073_600),
    (Rate::F25, 2_160_000),
    (Rate::F30, 2_592_000),
    (Rate::D30, 2_589_408),
];

#[test]
fn time_codes_are_numbered_packed_and_shown(rt: HostRuntime) {
    for &(rate, text, number, bytes) in &TIME_CODES {
        is_time_code(&rt, rate, text, number, bytes);
    }
    for &(rate, frames) in &DAYS {
        let last = Timecode::from_frames(rate, frames - 1).is_some();
        let behind = Timecode::from_frames(rate, frames).is_some();
        expect(&rt, "the last of a day", &(last, behind), &(true, false));
    }
    let faults = [
        Timecode::from_bcd(Rate::F25, [0x25, 0x00, 0x00, 0x00]).err(),
        Timecode::from_bcd(Rate::F25, [0x25, 0x6a, 0x00, 0x00]).err(),
        Timecode::parse(Rate::D30, "00:01:00;00").err(),
    ];
    let wanted = [
        Some(TcFault::OutOfRange(Field::Frames)),
        Some(TcFault::NotBcd(2)),
        Some(TcFault::Dropped),
    ];
    expect(&rt, "what is refused", &faults, &wanted);
}

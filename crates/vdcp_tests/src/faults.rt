//! The words of faults.
use crate::expecting::expect;
use std::alloc::AllocError;
use std::fmt;
use std::process::Abort;
use vdcp_frame::Full;
use vdcp_list::{ListFault, SlotFault, WriteFault};
use vdcp_value::{Field, IdFault, RowFault, TcFault};
use vdcp_words::WordFault;

/// Each of these faults has its words.
fn are_worded<F: fmt::Display + Copy + Drop>(
    rt: &(impl Abort + AllocGlobal),
    rows: &[(F, &str)],
) -> Result<(), AllocError> {
    for &(fault, words) in rows {
        let shown = format!(in rt.alloc(); "{fault}")?;
        expect(rt, words, &shown.as_str(), &words);
    }
    Ok(())
}

static ID_WORDS: [(IdFault, &str); 6] = [
    (IdFault::Empty, "the id is empty"),
    (IdFault::TooLong, "the id has more than eight bytes"),
    (
        IdFault::BadByte(2),
        "byte 2 of the id is no printable ascii character",
    ),
    (IdFault::EdgeSpace, "the id begins or ends with a space"),
    (
        IdFault::BadHex,
        "the id has a digit that is none of 0-9 and a-f",
    ),
    (IdFault::HasPlainForm, "the id has a plain form"),
];

static TIME_CODE_WORDS: [(TcFault, &str); 7] = [
    (
        TcFault::NotBcd(3),
        "byte 3 of the time code is no two decimal digits",
    ),
    (
        TcFault::OutOfRange(Field::Frames),
        "the frames of the time code are out of range",
    ),
    (
        TcFault::OutOfRange(Field::Seconds),
        "the seconds of the time code are out of range",
    ),
    (
        TcFault::OutOfRange(Field::Minutes),
        "the minutes of the time code are out of range",
    ),
    (
        TcFault::OutOfRange(Field::Hours),
        "the hours of the time code are out of range",
    ),
    (TcFault::Dropped, "the time code is dropped at this rate"),
    (TcFault::Shape, "the time code has not the form of one"),
];

static ROOM_WORDS: [(Full, &str); 1] = [(Full, "no room for the message")];

static WORD_WORDS: [(WordFault, &str); 3] = [
    (WordFault::NotCommand, "an answer and no command"),
    (WordFault::Unknown, "an unknown type and code"),
    (WordFault::Length, "a wrong number of data bytes"),
];

static LIST_WORDS: [(ListFault, &str); 7] = [
    (
        ListFault::Row(2, RowFault::Columns),
        "row 2 has a wrong number of fields",
    ),
    (ListFault::Row(3, RowFault::Id), "row 3 has no clip id"),
    (
        ListFault::Row(4, RowFault::Time),
        "row 4 has no time code that it can have",
    ),
    (
        ListFault::Row(5, RowFault::Twice),
        "row 5 has the clip id of an earlier row",
    ),
    (
        ListFault::Row(10_001, RowFault::TooMany),
        "row 10001 is one too many",
    ),
    (ListFault::Memory, "out of memory"),
    (ListFault::Read, "the reader failed"),
];

static SLOT_WORDS: [(SlotFault, &str); 2] = [
    (SlotFault::Twice, "the clip is there already"),
    (SlotFault::Full, "there is no room for another clip"),
];

static WRITE_WORDS: [(WriteFault, &str); 3] = [
    (WriteFault::Device, "the writer failed"),
    (WriteFault::Memory, "out of memory"),
    (
        WriteFault::Time(6),
        "the part of event 6 isn't lawful at the rate",
    ),
];

#[test]
fn faults_are_worded(rt: HostRuntime) -> Result<(), AllocError> {
    are_worded(&rt, &ID_WORDS)?;
    are_worded(&rt, &TIME_CODE_WORDS)?;
    are_worded(&rt, &ROOM_WORDS)?;
    are_worded(&rt, &WORD_WORDS)?;
    are_worded(&rt, &LIST_WORDS)?;
    are_worded(&rt, &SLOT_WORDS)?;
    are_worded(&rt, &WRITE_WORDS)
}

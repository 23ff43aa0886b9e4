//! How the rows of a journal are read.
ghost use Rattle.csv.specs.Records.{fields_of};
ghost use Rattle.std.specs.Prelude.{List, Option, ◌≡◌, ◌≢◌, ◌≤◌, ◌<◌, ◌^◌, ◌++◌, ◌∷◌, ◌↔◌, [], ℕ, IfErr, IfOk, IfSome, IfNone, IsTrue, OnSome, Some, codes, decimal, length, slice_get};
ghost use Rattle.vdcp_auto.specs.declared.phase.Mode.{Mode};
ghost use Rattle.vdcp_journal.specs.Journals.{IsFaultOfWord, IsJournal, IsJournalFault, IsHeading, IsHeadingFault, IsLinesFault, IsReading, IsRow, IsRowFault, TookRows};
ghost use Rattle.vdcp_journal.specs.Reading.{IsWritableNote};
ghost use Rattle.vdcp_journal.specs.Rows.{mode_text, note_fields};
ghost use Rattle.vdcp_journal.specs.Rows.{Fields};
ghost use Rattle.vdcp_journal.specs.declared.row.Row.{Row};
ghost use Rattle.vdcp_list.specs.Reading.{IsReadFault};
ghost use Rattle.vdcp_list.specs.Rows.{HasRows};

use crate::faults::{JournalReadFault, JournalRowFault};
use crate::fields::fields_of;
use crate::moment::Moment;
use crate::row::{Heading, Note, Row};
use crate::texts::{digest_in, note_in, number_in};
use csv::{ByteRecord, Reader};
use std::alloc::Global;
use std::io::Read;
use vdcp_auto::Mode;
use vdcp_list::laws::rows_are_read_in_order;
use vdcp_list::{Bounded, ListFault, next_row, rows_in};

fn is_written(unit: u8, note: &Note, word: &[u8], text: &[u8], detail: &[u8]) -> bool
    requires { unit ≤ 15 }
    ensures { IsTrue result ↔ (note_fields unit note.now ≡ word.now ∷ text.now ∷ detail.now ∷ []) }
{
    let fields = fields_of(unit, note, None);
    fields.word.as_bytes() == word
        && fields.text.as_bytes() == text
        && fields.detail.as_bytes() == detail
}

fn fault_of(word: &[u8]) -> JournalRowFault
    ensures { IsFaultOfWord word.now result }
{
    match word {
        b"sent" => JournalRowFault::Command,
        b"heard" => JournalRowFault::Reply,
        b"end" => JournalRowFault::Outcome,
        b"from" | b"left" | b"skip" => JournalRowFault::Event,
        b"silence" | b"take" | b"stop" | b"hold" | b"go" => JournalRowFault::Detail,
        _ => JournalRowFault::Word,
    }
}

fn row_of(
    unit: u8,
    time: &[u8],
    word: &[u8],
    text: &[u8],
    detail: &[u8],
) -> Result<Row, JournalRowFault>
    requires { unit ≤ 15 }
    ensures row { IfOk result (IsRow unit (time.now ∷ word.now ∷ text.now ∷ detail.now ∷ [])) }
    ensures fault { IfErr result (IsRowFault unit (time.now ∷ word.now ∷ text.now ∷ detail.now ∷ [])) }
{
    let Some(time) = Moment::parse(time) else {
        return Err(JournalRowFault::Time);
    };
    let Some(note) = note_in(unit, word, text, detail) else {
        return Err(fault_of(word));
    };
    if !is_written(unit, &note, word, text, detail) {
        return Err(fault_of(word));
    }
    Ok(Row { time, note })
}

fn number_up_to(text: &[u8], most: usize) -> Option<usize>
    ensures some { IfSome result (λ number. (decimal number ≡ text.now) × (number ≤ most)) }
    ensures none { IfNone result ((number : ℕ) → number ≤ most → decimal number ≢ text.now) }
{
    let Some(number) = number_in(text) else {
        return None;
    };
    if number > most {
        return None;
    }
    Some(number)
}

fn mode_in(text: &[u8]) -> Option<Mode>
    ensures some { IfSome result (λ mode. mode_text mode ≡ text.now) }
    ensures none { IfNone result ((mode : Mode) → mode_text mode ≢ text.now) }
{
    match text {
        b"plain" => Some(Mode::Plain),
        b"confirm" => Some(Mode::Confirming),
        _ => None,
    }
}

fn heading_of(
    time: &[u8],
    word: &[u8],
    digest: &[u8],
    mode: &[u8],
    unit: &[u8],
    port: &[u8],
    limit: &[u8],
) -> Result<(Moment, Heading), JournalRowFault>
    ensures heading { IfOk result (λ read. IsHeading
        (time.now ∷ word.now ∷ digest.now ∷ mode.now ∷ unit.now ∷ port.now ∷ limit.now ∷ []) read.0 read.1) }
    ensures fault { IfErr result (IsHeadingFault
        (time.now ∷ word.now ∷ digest.now ∷ mode.now ∷ unit.now ∷ port.now ∷ limit.now ∷ [])) }
{
    let Some(time) = Moment::parse(time) else {
        return Err(JournalRowFault::Time);
    };
    if word != b"list".as_slice() {
        return Err(JournalRowFault::Word);
    }
    let Some(digest) = digest_in(digest) else {
        return Err(JournalRowFault::Digest);
    };
    let Some(mode) = mode_in(mode) else {
        return Err(JournalRowFault::Mode);
    };
    let Some(unit) = number_up_to(unit, 15) else {
        return Err(JournalRowFault::Number);
    };
    let Some(port) = number_up_to(port, 255) else {
        return Err(JournalRowFault::Number);
    };
    let Some(limit) = number_up_to(limit, 0xFFFF_FFFF) else {
        return Err(JournalRowFault::Number);
    };
    let heading = Heading {
        digest,
        mode,
        unit: unit as u8,
        port: port as u8,
        limit: limit as u32,
    };
    Ok((time, heading))
}

fn field_at(row: &ByteRecord, place: usize) -> &[u8]
    requires { place < length (fields_of row.now) }
    ensures { slice_get (fields_of row.now) place ≡ Some result.now }
{
    row.get(place).unwrap()
}

fn heading_in(row: &ByteRecord) -> Result<(Moment, Heading), JournalRowFault>
    ensures heading { IfOk result (λ read. IsHeading (fields_of row.now) read.0 read.1) }
    ensures fault { IfErr result (IsHeadingFault (fields_of row.now)) }
{
    if row.len() != 7 {
        return Err(JournalRowFault::Fields);
    }
    heading_of(
        field_at(row, 0),
        field_at(row, 1),
        field_at(row, 2),
        field_at(row, 3),
        field_at(row, 4),
        field_at(row, 5),
        field_at(row, 6),
    )
}

fn row_in(row: &ByteRecord, unit: u8) -> Result<Row, JournalRowFault>
    requires { unit ≤ 15 }
    ensures row { IfOk result (IsRow unit (fields_of row.now)) }
    ensures fault { IfErr result (IsRowFault unit (fields_of row.now)) }
{
    if row.len() != 4 {
        return Err(JournalRowFault::Fields);
    }
    row_of(
        unit,
        field_at(row, 0),
        field_at(row, 1),
        field_at(row, 2),
        field_at(row, 3),
    )
}

fn fault_in(fault: ListFault) -> JournalReadFault
    requires { IsReadFault fault }
    ensures { (lines : List Fields) → IsLinesFault lines result }
{
    match fault {
        ListFault::Memory => JournalReadFault::Memory,
        ListFault::Row(row, _) => JournalReadFault::Long(row),
        ListFault::Read => JournalReadFault::Device,
    }
}

/// Reads a journal's rows, one after another.
#[derive(Drop)]
pub struct JournalRows<R> {
    /// When the journal was begun.
    pub time: Moment,
    pub heading: Heading,
    lines: Reader<Bounded<R>>,
    line: ByteRecord,
    // The number of the last row that was taken: the heading is row 1.
    number: usize,
}

impl<R: Read + Drop> JournalRows<R> {
    /// Reads the heading. The reader has to give whole rows, as `WholeLines` does: a torn one isn't left out here.
    ///
    /// The fault is `Empty` if there is no row, `Heading` if the first is none, `Long`, `Memory` or `Device`.
    pub fn begin(alloc: Global, reader: R) -> Result<JournalRows<R>, JournalReadFault>
        ensures begun { IfOk result (λ journal. TookRows R.remaining (R.remaining reader) journal []) }
        ensures refused { IfErr result (IsJournalFault (R.remaining reader)) }
    {
        rows_are_read_in_order();
        let mut lines = rows_in(alloc, reader);
        let mut line = ByteRecord::new(alloc);
        match next_row(&mut lines, &mut line) {
            Ok(true) => {}
            Ok(false) => return Err(JournalReadFault::Empty),
            Err(fault) => return Err(fault_in(fault)),
        }
        match heading_in(&line) {
            Ok((time, heading)) => Ok(JournalRows {
                time,
                heading,
                lines,
                line,
                number: 1,
            }),
            Err(fault) => Err(JournalReadFault::Heading(fault)),
        }
    }

    /// The next row, or None at the end. The fault is `Row` if no journal of this heading has such a row, `Long`, `Memory`
    /// or `Device`. After the end and after a fault nothing more can be asked for.
    pub fn next_row(&mut self) -> Result<Option<Row>, JournalReadFault>
        requires { IsReading self.old }
        ensures reading { IfOk result (λ found. OnSome found (IsReading self.new)) }
        ensures row { (file : Option (List ℕ)) (rows : List Row) → TookRows R.remaining file self.old rows
            → IfOk result (λ found. IfSome found (λ row. TookRows R.remaining file self.new (rows ++ row ∷ []))) }
        ensures all { (file : Option (List ℕ)) (rows : List Row) → TookRows R.remaining file self.old rows
            → IfOk result (λ found. IfNone found
            (IsJournal file (record { time = self.old.time; heading = self.old.heading; rows = rows }))) }
        ensures refused { (file : Option (List ℕ)) (rows : List Row) → TookRows R.remaining file self.old rows
            → IfErr result (IsJournalFault file) }
        ensures time { self.new.time ≡ self.old.time }
        ensures heading { self.new.heading ≡ self.old.heading }
    {
        rows_are_read_in_order();
        match next_row(&mut self.lines, &mut self.line) {
            Ok(true) => {}
            Ok(false) => return Ok(None),
            Err(fault) => return Err(fault_in(fault)),
        }
        // (no file has more rows than this counts)
        let Some(number) = self.number.checked_add(1) else {
            return Err(JournalReadFault::Device);
        };
        match row_in(&self.line, self.heading.unit) {
            Ok(row) => {
                self.number = number;
                Ok(Some(row))
            }
            Err(fault) => Err(JournalReadFault::Row(number, fault)),
        }
    }
}

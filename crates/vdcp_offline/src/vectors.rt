//! The subcommand `vectors`: does each burst read as its row says?
ghost use Rattle.csv.specs.Records.{fields_of};
ghost use Rattle.hex.specs.Hex.{decode_of};
ghost use Rattle.std.specs.Io.KnownBytes.{Appends, Keeps};
ghost use Rattle.std.specs.Prelude.{◌≡◌, ◌⊎◌, ◌<◌, ◌≤◌, ℕ, ◌≢◌, ◌++◌, ◌∷◌, [], IfErr, IfNone, IfOk, IfSome, List, OnOk, Option, codes, length, string_bytes, true};
ghost use Rattle.vdcp_text.specs.Failure.{failure_line};
ghost use Rattle.vdcp_text.specs.Text.{message_text};
ghost use Rattle.vdcp_text.specs.Subcommand.{Counted, IsSubcommand};
ghost use Rattle.vdcp_offline.specs.Vectors.{AreTested, Finding, HasTooMany, IsTally, IsTallyOf, IsUntested, RefusesRows, bad_count, finding_of, finding_of_burst, finding_of_row, finding_text, joined_reading, joined_text, too_long, too_many, vectors_text};
ghost use Rattle.vdcp_offline.specs.RowLaws.{RowLaws};
ghost use Rattle.vdcp_frame.specs.Burst.{end_of, messages_of};
ghost use Rattle.vdcp_frame.specs.Message.{content_of};
ghost use Rattle.vdcp_frame.specs.Walk.{end_seen};
ghost use Rattle.vdcp_list.specs.Reading.{IsSet, TakesRow, rows_left};
ghost use Rattle.vdcp_list.specs.Rows.{most_rows, rows_of};

use csv::{ByteRecord, Reader};
use hex::FromHexError;
use std::alloc::{AllocError, Global};
use std::fmt::Write;
use std::{fmt, io};
use vdcp_files::{NamedFile, file_failure};
use vdcp_frame::{End, Message, Messages};
use vdcp_list::laws::rows_are_read_in_order;
use vdcp_list::{Bounded, MAX_ROWS, next_row, rows_in};
use vdcp_text::{EndText, Failure, MessageText};
use vdcp_value::RowFault;

/// Tests each row of a file of bursts, of the form that `docs/FORMATS.md` gives. `out` gets a line for each row that has
/// another reading, hasn't two fields, or whose first isn't an even number of hexadecimal digits; then one with how many
/// rows there are. Then it is flushed.
///
/// The status is 0 if all rows are right, and 1 if one isn't. It is also 1 if there are more than 10,000 rows or one is
/// longer than 64 KiB, and 3 if the file can't be read or memory was refused: then `err` gets one line, and `out` nothing.
/// It is 3 if a writer failed, which gets nothing more.
pub fn do_vectors<R: io::Read + Drop, W: io::Write, E: io::Write>(
    alloc: Global,
    file: NamedFile<'_, R>,
    out: &mut W,
    err: &mut E,
) -> u8
    ensures { let bytes = R.remaining file.entry.reader in
        IsSubcommand (λ right old new. Counted (AreTested bytes old new) right) (RefusesRows file.entry.name bytes)
        (IfSome bytes (λ known. length (rows_of known) ≤ most_rows))
        (W.contents out.old) (W.contents out.new) (E.contents err.old) (E.contents err.new) result }
{
    match vectors(alloc, file, out) {
        Ok(0) => 0,
        Ok(_) => 1,
        Err(failure) => failure.report(err),
    }
}

fn vectors<'a, R: io::Read + Drop, W: io::Write>(
    alloc: Global,
    file: NamedFile<'a, R>,
    out: &mut W,
) -> Result<usize, Failure<'a>>
    ensures tested { IfOk result (AreTested (R.remaining file.entry.reader) (W.contents out.old) (W.contents out.new)) }
    ensures refused { IfErr result (λ e. (e ≡ Failure.Writer)
        ⊎ (IsUntested file.entry.name (R.remaining file.entry.reader) e
        × Keeps (W.contents out.old) (W.contents out.new))) }
    ensures silent { Keeps (W.contents out.old) (W.contents out.new)
        ⊎ IfSome (R.remaining file.entry.reader) (λ bytes. length (rows_of bytes) ≤ most_rows) }
{
    let tally = test_rows(alloc, file)?;
    tally.write(out).map_err(|_| Failure::Writer)
}

fn test_rows<'a, R: io::Read + Drop>(
    alloc: Global,
    file: NamedFile<'a, R>,
) -> Result<Tally, Failure<'a>>
    ensures tally { IfOk result (IsTallyOf (R.remaining file.entry.reader)) }
    ensures refused { IfErr result (IsUntested file.entry.name (R.remaining file.entry.reader)) }
{
    rows_are_read();
    let name = file.name;
    let mut rows = rows_in(alloc, file.reader);
    let mut row = ByteRecord::new(alloc);
    let mut burst = Vec::new(alloc);
    let mut reading = String::new(alloc);
    let mut tally = Tally::new(alloc);
    while take_row(name, &mut rows, &mut row)? {
        if tally.rows == MAX_ROWS {
            return Err(too_many(name));
        }
        let verdict = test_row(&row, &mut burst, &mut reading)?;
        tally.add(verdict)?;
    }
    Ok(tally)
}

fn rows_are_read()
    ensures { RowLaws }
{
    rows_are_read_in_order();
}

#[tactic(auto, using(crate::proofs::VectorLemmas::untested))]
fn take_row<'a, R: io::Read>(
    name: &'a str,
    reader: &mut Reader<Bounded<R>>,
    row: &mut ByteRecord,
) -> Result<bool, Failure<'a>>
    requires { IsSet reader.old }
    ensures set { IfOk result (λ found. found ≡ true → IsSet reader.new) }
    ensures takes { IfOk result (λ found. TakesRow (rows_left R.remaining reader.old) (rows_left R.remaining reader.new)
        found (fields_of row.new)) }
    ensures refused { (file : Option (List ℕ)) → IfErr result (IsUntested name.entry file) }
{
    match next_row(reader, row) {
        Ok(found) => Ok(found),
        Err(fault) => Err(file_failure(name, fault)),
    }
}

fn too_many<'a>(name: &'a str) -> Failure<'a>
    ensures { result ≡ too_many name.entry }
{
    Failure::Row(name, MAX_ROWS + 1, RowFault::TooMany)
}

#[derive(Clone, Copy)]
enum Verdict<'a> {
    Right,
    Columns,
    Hex,
    // It has this reading instead.
    Other(&'a str),
}

impl Verdict<'_> {
    fn bad(self) -> usize
        ensures bad { result ≡ bad_count (finding_of self.entry ∷ []) }
        ensures few { result ≤ 1 }
    {
        match self {
            Verdict::Right => 0,
            Verdict::Columns | Verdict::Hex | Verdict::Other(_) => 1,
        }
    }
}

// The buffers are lent, so that no row needs memory of its own.
fn test_row<'a>(
    row: &ByteRecord,
    burst: &mut Vec<u8>,
    reading: &'a mut String,
) -> Result<Verdict<'a>, AllocError>
    ensures { IfOk result (λ verdict. finding_of verdict ≡ finding_of_row (fields_of row.now)) }
{
    match two_fields(row) {
        Some((digits, expected)) => test_burst(digits, expected, burst, reading),
        None => Ok(Verdict::Columns),
    }
}

fn two_fields(row: &ByteRecord) -> Option<(&[u8], &[u8])>
    ensures some { IfSome result (λ fields. fields_of row.now ≡ fields.0.now ∷ fields.1.now ∷ []) }
    ensures none { IfNone result (length (fields_of row.now) ≢ 2) }
{
    if row.len() != 2 {
        return None;
    }
    Some((row.get(0)?, row.get(1)?))
}

fn test_burst<'a>(
    digits: &[u8],
    expected: &[u8],
    burst: &mut Vec<u8>,
    reading: &'a mut String,
) -> Result<Verdict<'a>, AllocError>
    ensures { IfOk result (λ verdict. finding_of verdict ≡ finding_of_burst (decode_of digits.now) expected.now) }
{
    match decode(digits, burst) {
        Ok(()) => {}
        Err(FromHexError::OutOfMemory) => return Err(AllocError),
        Err(_) => return Ok(Verdict::Hex),
    }
    show_reading(burst.as_slice(), reading)?;
    if reading.as_bytes() == expected {
        Ok(Verdict::Right)
    } else {
        Ok(Verdict::Other(reading.as_str()))
    }
}

fn decode(digits: &[u8], bytes: &mut Vec<u8>) -> Result<(), FromHexError>
    ensures ok { OnOk result (decode_of digits.now ≡ Ok bytes.new.items) }
    ensures err { IfErr result (λ e. (e ≡ FromHexError.OutOfMemory) ⊎ (decode_of digits.now ≡ Err e)) }
{
    if bytes.resize(digits.len() / 2, 0).is_err() {
        return Err(FromHexError::OutOfMemory);
    }
    hex::decode_to_slice(digits, bytes.as_mut_slice())
}

fn show_reading(burst: &[u8], text: &mut String) -> Result<(), AllocError>
    ensures { OnOk result (string_bytes text.new ≡ joined_reading burst.now) }
{
    let end = show_messages(burst, text)?;
    let end = EndText(end);
    write!(text, "{end}")
}

fn show_messages(burst: &[u8], text: &mut String) -> Result<End, AllocError>
    ensures end { IfOk result (λ end. end_seen end ≡ end_of burst.now) }
    ensures text { OnOk result (string_bytes text.new ≡ joined_text (messages_of burst.now)) }
{
    text.clear();
    let mut messages = Messages::of(burst);
    'messages: while let Some(message) = messages.next() {
        write_message(message, text)?;
    }
    Ok(messages.end())
}

fn write_message(message: Message<'_>, text: &mut String) -> Result<(), AllocError>
    ensures { OnOk result (string_bytes text.new
        ≡ string_bytes text.old ++ (message_text (content_of message.entry) ++ codes "; ")) }
{
    let message = MessageText(message);
    write!(text, "{message}; ")
}

fn write_line(lines: &mut String, k: usize, verdict: Verdict<'_>) -> Result<(), AllocError>
    ensures { OnOk result (string_bytes lines.new
        ≡ string_bytes lines.old ++ finding_text k (finding_of verdict.entry)) }
{
    match verdict {
        Verdict::Right => Ok(()),
        Verdict::Columns => writeln!(lines, "row {k}: columns"),
        Verdict::Hex => writeln!(lines, "row {k}: hex"),
        Verdict::Other(reading) => writeln!(lines, "row {k}: got {reading}"),
    }
}

#[derive(Drop)]
struct Tally {
    rows: usize,
    bad: usize,
    // The lines of the bad rows.
    lines: String,
}

impl Tally {
    fn new(alloc: Global) -> Tally
        ensures { IsTally [] result }
    {
        Tally {
            rows: 0,
            bad: 0,
            lines: String::new(alloc),
        }
    }

    fn add(&mut self, verdict: Verdict<'_>) -> Result<(), AllocError>
        requires few { self.old.rows < 10_000 }
        requires within { self.old.bad ≤ self.old.rows }
        ensures { OnOk result ((findings : List Finding) → IsTally findings self.old
            → IsTally (findings ++ finding_of verdict.entry ∷ []) self.new) }
    {
        let k = self.rows + 1;
        write_line(&mut self.lines, k, verdict)?;
        self.rows = k;
        self.bad += verdict.bad();
        Ok(())
    }

    fn write<W: io::Write>(&self, out: &mut W) -> io::Result<usize>
        ensures text { (findings : List Finding) → IsTally findings self.now
            → OnOk result (Appends (W.contents out.old) (W.contents out.new) (vectors_text findings)) }
        ensures bad { IfOk result (λ bad. bad ≡ self.now.bad) }
    {
        let Tally { rows, bad, lines } = self;
        out.write_all(lines.as_bytes())?;
        let count = CountText {
            rows: *rows,
            bad: *bad,
        };
        writeln!(out, "{count}")?;
        out.flush()?;
        Ok(*bad)
    }
}

#[derive(Clone, Copy)]
struct CountText {
    rows: usize,
    bad: usize,
}

impl fmt::Display for CountText {
    ghost use Rattle.std.specs.Prelude.{Some};
    ghost use Rattle.vdcp_offline.specs.Vectors.{count_text};

    ghost output = { λ c. Some (count_text c.rows c.bad) };

    fn fmt<W: fmt::Write>(&self, f: &mut fmt::Formatter<W>) -> fmt::Result {
        let CountText { rows, bad } = *self;
        if bad == 0 {
            write!(f, "vectors {rows} ok")
        } else {
            write!(f, "vectors {rows} bad {bad}")
        }
    }
}

//! How a file's rows are read, one after another.
ghost use Rattle.csv.specs.Reading.{error_kind};
ghost use Rattle.csv.specs.Records.{fields_of};
ghost use Rattle.std.specs.Prelude.{◌≡◌, ◌≤◌, ◌⊎◌, ◌+◌, ◌++◌, ◌∷◌, [], true, IfErr, IfOk, List, OnOk, length, option_map};
ghost use Rattle.vdcp_list.specs.Reading.{IsOfRow, IsReadFault, IsRowsFault, IsSet, TakesRow, fault_of_kind, rows_left};
ghost use Rattle.vdcp_list.specs.Rows.{FileBytes, FileRow, HasRows, most_rows, rows_of};

use crate::bounded::{Bounded, LONGEST_ROW};
use crate::faults::ListFault;
use csv::{ByteRecord, Error, ErrorKind, Position, Reader, ReaderBuilder};
use std::alloc::Global;
use std::io::Read;
use vdcp_value::{Rate, RowFault};

pub const MAX_ROWS: usize = 10_000;

/// A reader of a file's rows: CSV with commas and double quotes, without a header row. Rows may have any number of
/// fields, and blank lines are left out. Nothing is read before the first `next_row`.
pub fn rows_in<R: Read>(alloc: Global, source: R) -> Reader<Bounded<R>>
    ensures set { IsSet result }
    ensures rows { rows_left R.remaining result ≡ option_map rows_of (R.remaining source) }
{
    ReaderBuilder::new()
        .has_headers(false)
        .flexible(true)
        .from_reader(alloc, Bounded::new(source))
}

/// Takes the next row into `row`, and says whether there was one. Only `row` takes memory: it grows to its longest row.
///
/// `Long`: the row has more than 64 KiB. `Memory`: a growth of `row` was refused. `Read`: the source failed. After each
/// of these, and if there was no row, the reader isn't read again.
pub fn next_row<R: Read>(
    reader: &mut Reader<Bounded<R>>,
    row: &mut ByteRecord,
) -> Result<bool, ListFault>
    requires { IsSet reader.old }
    ensures set { IfOk result (λ found. found ≡ true → IsSet reader.new) }
    ensures takes { IfOk result (λ found. TakesRow (rows_left R.remaining reader.old) (rows_left R.remaining reader.new)
        found (fields_of row.new)) }
    ensures failed { IfErr result IsReadFault }
{
    let before = reader.position();
    reader.get_ref().begin_row();
    match reader.read_byte_record(row) {
        Ok(_) if is_long(before, reader.position()) => Err(long_row(before)),
        Ok(found) => Ok(found),
        Err(_) if reader.get_ref().is_spent() => Err(long_row(before)),
        Err(error) => Err(fault_of(error)),
    }
}

/// What the rows of a file make, one after another.
pub(crate) trait MadeOfRows {
    ghost use Rattle.std.specs.Prelude.{List};
    ghost use Rattle.vdcp_list.specs.Rows.{FileRow};
    ghost use Rattle.vdcp_value.specs.declared.faults.RowFault.{RowFault};
    ghost use Rattle.vdcp_value.specs.declared.rate.Rate.{Rate};

    ghost makes: { Rate → List FileRow → Self → Type 0 };

    ghost make_some: { Rate → List FileRow → Type 0 };

    ghost refuses: { Rate → List FileRow → FileRow → RowFault → Type 0 };

    fn add_row(&mut self, row: &ByteRecord, rate: Rate, place: usize) -> Result<(), ListFault>
        ensures made { (before : List FileRow) → makes rate before self.old → place ≡ length before + 1
            → OnOk result (makes rate (before ++ fields_of row.now ∷ []) self.new) }
        ensures refused { (before : List FileRow) → makes rate before self.old → place ≡ length before + 1
            → IfErr result (λ fault. IsReadFault fault ⊎ IsOfRow place (refuses rate before (fields_of row.now)) fault) };

    ghost makes_some: { (rate : Rate) (rows : List FileRow) (made : Self) → makes rate rows made → make_some rate rows };
}

/// `none` is what no rows make.
pub(crate) fn made_of<R: Read + Drop, M: MadeOfRows + Drop>(
    alloc: Global,
    source: R,
    none: M,
    rate: Rate,
) -> Result<M, ListFault>
    requires { M.makes rate [] none }
    ensures made { IfOk result (λ made. HasRows (R.remaining source) (λ all. (length all ≤ most_rows) × M.makes rate all made)) }
    ensures refused { IfErr result (λ fault. HasRows (R.remaining source)
        (λ all. IsRowsFault (M.make_some rate) (M.refuses rate) all fault)) }
{
    let mut rows = rows_in(alloc, source);
    let mut row = ByteRecord::new(alloc);
    let mut made = none;
    match add_rows(&mut rows, &mut row, &mut made, rate) {
        Ok(()) => Ok(made),
        Err(fault) => Err(fault),
    }
}

/// It owns nothing, since the proof of each way out takes much longer if it does.
fn add_rows<R: Read, M: MadeOfRows>(
    rows: &mut Reader<Bounded<R>>,
    row: &mut ByteRecord,
    made: &mut M,
    rate: Rate,
) -> Result<(), ListFault>
    requires set { IsSet rows.old }
    requires none { M.makes rate [] made.old }
    ensures made { (file : FileBytes) → rows_left R.remaining rows.old ≡ option_map rows_of file
        → OnOk result (HasRows file (λ all. (length all ≤ most_rows) × M.makes rate all made.new)) }
    ensures refused { (file : FileBytes) → rows_left R.remaining rows.old ≡ option_map rows_of file
        → IfErr result (λ fault. HasRows file (λ all. IsRowsFault (M.make_some rate) (M.refuses rate) all fault)) }
{
    for read in 0..MAX_ROWS {
        if !next_row(rows, row)? {
            return Ok(());
        }
        made.add_row(row, rate, read + 1)?;
    }
    if next_row(rows, row)? {
        return Err(ListFault::Row(MAX_ROWS + 1, RowFault::TooMany));
    }
    Ok(())
}

fn is_long(start: Position, end: Position) -> bool {
    end.byte().saturating_sub(start.byte()) > LONGEST_ROW as u64
}

fn long_row(place: Position) -> ListFault
    ensures { IsReadFault result }
{
    ListFault::Row((place.record() as usize).saturating_add(1), RowFault::Long)
}

fn fault_of(error: Error) -> ListFault
    ensures { result ≡ fault_of_kind (error_kind error) }
{
    match error.into_kind() {
        ErrorKind::OutOfMemory => ListFault::Memory,
        // The others but `Io` don't come: rows may have any length and are read as bytes.
        ErrorKind::Io(_)
        | ErrorKind::Utf8 { .. }
        | ErrorKind::UnequalLengths { .. }
        | ErrorKind::Serialize(_)
        | ErrorKind::Deserialize { .. } => ListFault::Read,
    }
}

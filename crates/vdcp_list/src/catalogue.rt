//! How a catalogue is read.
ghost use Rattle.csv.specs.Records.{fields_of};
ghost use Rattle.std.specs.Prelude.{◌≡◌, ◌≢◌, [], ◌∷◌, IfErr, IfNone, IfOk, IfSome, List, drop, length};
ghost use Rattle.vdcp_list.specs.Catalogues.{CanLast, IsCatalogueFaultOf, IsCatalogueOf, IsClipFault, clip_row};
ghost use Rattle.vdcp_list.specs.Reading.{IsOfRow};
ghost use Rattle.vdcp_list.specs.Rows.{FileRow};
ghost use Rattle.vdcp_value.specs.Timecodes.{text_of};
ghost use Rattle.vdcp_value.specs.declared.timecode.Timecode.{Timecode};

use crate::faults::ListFault;
use crate::fields::{field_at, first_id, time_in};
use crate::rows::{MadeOfRows, made_of};
use crate::table::Table;
use csv::ByteRecord;
use std::alloc::Global;
use std::io::Read;
use vdcp_value::laws::{a_time_code_is_one, an_id_is_its_bytes};
use vdcp_value::{ClipId, Rate, RowFault, Timecode};

fn clip_in(row: &ByteRecord, rate: Rate, place: usize) -> Result<(ClipId, Timecode), ListFault>
    ensures row { IfOk result (λ clip. clip_row clip ≡ fields_of row.now) }
    ensures can_last { IfOk result (λ clip. CanLast rate clip.1) }
    ensures fault { (before : List FileRow) → IfErr result (IsOfRow place (IsClipFault rate before (fields_of row.now))) }
{
    if row.len() != 2 {
        return Err(ListFault::Row(place, RowFault::Columns));
    }
    let Some(id) = first_id(row) else {
        return Err(ListFault::Row(place, RowFault::Id));
    };
    let Some(length) = last_length(row, rate) else {
        return Err(ListFault::Row(place, RowFault::Time));
    };
    Ok((id, length))
}

fn last_length(row: &ByteRecord, rate: Rate) -> Option<Timecode>
    requires { length (fields_of row.now) ≡ 2 }
    ensures some { IfSome result (λ length. drop 1 (fields_of row.now) ≡ text_of length ∷ []) }
    ensures can_last { IfSome result (CanLast rate) }
    ensures none { IfNone result ((length : Timecode) → CanLast rate length
        → drop 1 (fields_of row.now) ≢ text_of length ∷ []) }
{
    a_time_code_is_one();
    let Some(field) = field_at(row, 1) else {
        return None;
    };
    let Some(length) = time_in(field, rate) else {
        return None;
    };
    if length.frames() == 0 {
        return None;
    }
    Some(length)
}

/// Reads a catalogue: CSV with commas and double quotes, without a header row; blank lines are left out. A row is two
/// fields: a clip's ID, and its length, a time code at this rate.
///
/// `TooMany`: 10,000 rows come before. `Id`: also a field that isn't UTF-8. `Time`: no lawful time code, or one of
/// frame 0. `Twice`: an earlier row has its ID.
pub fn read_catalogue<R: Read + Drop>(
    alloc: Global,
    reader: R,
    rate: Rate,
) -> Result<Table, ListFault>
    ensures clips { IfOk result (IsCatalogueOf rate (R.remaining reader)) }
    ensures refused { IfErr result (IsCatalogueFaultOf rate (R.remaining reader)) }
{
    made_of(alloc, reader, Table::new(alloc), rate)
}

impl MadeOfRows for Table {
    ghost use Rattle.vdcp_list.specs.Catalogues.{GiveClips, Gives, IsClipFault};

    ghost makes = { Gives };

    ghost make_some = { GiveClips };

    ghost refuses = { IsClipFault };

    fn add_row(&mut self, row: &ByteRecord, rate: Rate, place: usize) -> Result<(), ListFault> {
        an_id_is_its_bytes();
        let (id, length) = clip_in(row, rate, place)?;
        match self.add(id, length) {
            Ok(true) => Ok(()),
            Ok(false) => Err(ListFault::Row(place, RowFault::Twice)),
            Err(_) => Err(ListFault::Memory),
        }
    }

    ghost makes_some = { λ rate rows clips h. (clips, h) };
}

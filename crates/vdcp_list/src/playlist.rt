//! How a playlist is read.
ghost use Rattle.csv.specs.Records.{fields_of};
ghost use Rattle.std.specs.Prelude.{◌≡◌, ◌≢◌, [], ◌∷◌, drop, length, true, IfErr, IfNone, IfOk, IfSome, Option, Some, slice_get};
ghost use Rattle.vdcp_list.specs.Playlists.{CanName, IsItemFault, IsListFaultOf, IsListOf, has_parts, item_row, part_fields};
ghost use Rattle.vdcp_list.specs.List.{items_of};
ghost use Rattle.vdcp_list.specs.Reading.{IsOfRow};
ghost use Rattle.vdcp_value.specs.Ids.{text_of_id};
ghost use Rattle.vdcp_value.specs.declared.part.Part.{Part};

use crate::faults::ListFault;
use crate::fields::{field_at, fields_say_values, first_id, id_text, time_in};
use crate::list::List;
use crate::rows::{MadeOfRows, made_of};
use csv::ByteRecord;
use std::alloc::Global;
use std::io::Read;
use vdcp_value::{Item, Part, Rate, RowFault};

fn item_in(row: &ByteRecord, columns: usize, rate: Rate, place: usize) -> Result<Item, ListFault>
    ensures row { IfOk result (λ item. item_row rate (has_parts columns) item ≡ fields_of row.now) }
    ensures can_name { IfOk result (λ item. CanName rate (has_parts columns) item.part) }
    ensures id { IfOk result (λ item. slice_get (fields_of row.now) 0 ≡ Some (text_of_id item.id)) }
    ensures fault { IfErr result (IsOfRow place (IsItemFault rate columns (fields_of row.now))) }
{
    if row.len() != columns || columns != 1 && columns != 3 {
        return Err(ListFault::Row(place, RowFault::Columns));
    }
    let Some(id) = first_id(row) else {
        return Err(ListFault::Row(place, RowFault::Id));
    };
    if columns == 1 {
        return Ok(Item { id, part: None });
    }
    match last_part(row, rate) {
        Some(part) => Ok(Item { id, part }),
        None => Err(ListFault::Row(place, RowFault::Time)),
    }
}

fn last_part(row: &ByteRecord, rate: Rate) -> Option<Option<Part>>
    requires { length (fields_of row.now) ≡ 3 }
    ensures some { IfSome result (λ part. (part_fields rate part ≡ drop 1 (fields_of row.now)) × CanName rate true part) }
    ensures none { IfNone result ((part : Option Part) → CanName rate true part
        → part_fields rate part ≢ drop 1 (fields_of row.now)) }
{
    part_in(field_at(row, 1)?, field_at(row, 2)?, rate)
}

fn part_in(start: &[u8], duration: &[u8], rate: Rate) -> Option<Option<Part>>
    ensures some { IfSome result (λ part. (part_fields rate part ≡ start.now ∷ duration.now ∷ [])
        × CanName rate true part) }
    ensures none { IfNone result ((part : Option Part) → CanName rate true part
        → part_fields rate part ≢ start.now ∷ duration.now ∷ []) }
{
    fields_say_values();
    if start.is_empty() && duration.is_empty() {
        return Some(None);
    }
    let Some(start) = time_in(start, rate) else {
        return None;
    };
    let Some(duration) = time_in(duration, rate) else {
        return None;
    };
    if duration.frames() == 0 {
        return None;
    }
    Some(Some(Part {
        start: start.to_bcd(),
        duration: duration.to_bcd(),
    }))
}

/// Reads a playlist: CSV with commas and double quotes, without a header row; blank lines are left out. A row is an ID,
/// or an ID and a part's start and duration at this rate, both empty for a whole clip; the first row says which.
///
/// `TooMany`: 10,000 rows come before. `Id`: also a field that isn't UTF-8. `Time`: no lawful time code, one of the two
/// fields is empty, or the duration is of frame 0.
pub fn read_list<R: Read + Drop>(alloc: Global, reader: R, rate: Rate) -> Result<List, ListFault>
    ensures items { IfOk result (λ list. IsListOf rate (R.remaining reader) (items_of list)) }
    ensures refused { IfErr result (IsListFaultOf rate (R.remaining reader)) }
{
    let list = List::new(alloc);
    match made_of(alloc, reader, Playlist { list, columns: 0 }, rate) {
        Ok(playlist) => Ok(playlist.list),
        Err(fault) => Err(fault),
    }
}

#[derive(Drop)]
struct Playlist {
    list: List,
    columns: usize,
}

impl MadeOfRows for Playlist {
    ghost use Rattle.std.specs.Prelude.{◌≡◌};
    ghost use Rattle.vdcp_list.specs.List.{items_of};
    ghost use Rattle.vdcp_list.specs.Playlists.{IsNextFault, NameItems, Names, columns_of, has_parts};

    ghost makes = { λ rate rows made. Names rate (has_parts (columns_of rows)) rows (items_of made.list)
        × (made.columns ≡ columns_of rows) };

    ghost make_some = { NameItems };

    ghost refuses = { IsNextFault };

    fn add_row(&mut self, row: &ByteRecord, rate: Rate, place: usize) -> Result<(), ListFault> {
        if place == 1 {
            self.columns = row.len();
        }
        let item = item_in(row, self.columns, rate, place)?;
        match self.list.push(item, id_text(row)) {
            Ok(()) => Ok(()),
            Err(_) => Err(ListFault::Memory),
        }
    }

    ghost makes_some = { λ rate rows made h. (items_of made.list, h.0) };
}

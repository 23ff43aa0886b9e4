//! What the bytes of an event's struct are: an item, and its ID.
ghost use Rattle.std.specs.Prelude.{◌≡◌};
ghost use Rattle.vdcp_value.specs.Ids.{id_of};
ghost use Rattle.vdcp_c.specs.Lists.{item_of};

use crate::item::vdcp_item;
use vdcp_value::laws::an_id_is_its_bytes;
use vdcp_value::{ClipId, Item, Part};

pub(crate) fn item_in(row: &vdcp_item) -> Item
    ensures { result ≡ item_of row.now }
{
    Item {
        id: id_in(&row.id),
        part: part_in(row),
    }
}

pub(crate) fn id_in(bytes: &[u8; 8]) -> ClipId
    ensures { result ≡ id_of bytes.now }
{
    an_id_is_its_bytes();
    ClipId::new(*bytes)
}

fn part_in(row: &vdcp_item) -> Option<Part>
    ensures { result ≡ (item_of row.now).part }
{
    if row.has_part == 0 {
        None
    } else {
        Some(Part {
            start: row.start,
            duration: row.duration,
        })
    }
}

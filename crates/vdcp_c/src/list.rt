//! The playlist that a C caller lends, as a controller's source.
ghost use Rattle.std.specs.Prelude.{◌≡◌, ◌<◌, ◌^◌, length};

use crate::item::vdcp_item;
use crate::row::item_in;
use vdcp_auto::Source;
use vdcp_value::Item;

#[derive(Clone, Copy)]
pub(crate) struct LentList<'a> {
    rows: &'a [vdcp_item],
    ghost counted: { length rows.now < 2 ^ 64 },
}

impl<'a> LentList<'a> {
    pub(crate) fn of(rows: &'a [vdcp_item]) -> LentList<'a>
        ensures { result.rows.now ≡ rows.now }
    {
        let _count = rows.len();
        LentList { rows }
    }
}

impl<'a> Source for LentList<'a> {
    ghost use Rattle.vdcp_c.specs.Lists.{items_of};
    ghost use Rattle.vdcp_c.specs.ListLaws as laws;

    ghost items = { λ s. items_of s.rows.now };

    ghost countable = { λ s. laws.countable s.rows.now s.counted };

    ghost of_bytes = { λ s. laws.of_bytes s.rows.now };

    fn len(&self) -> usize {
        self.rows.len()
    }

    fn at(&self, k: usize) -> Item {
        item_in(&self.rows[k])
    }
}

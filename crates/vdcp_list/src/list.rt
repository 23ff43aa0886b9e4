//! A playlist in memory, as a controller's source.
ghost use Rattle.std.specs.List.{list_all};
ghost use Rattle.std.specs.Prelude.{◌≡◌, ◌++◌, ◌∷◌, [], IsTrue, OnOk, OnErr};
ghost use Rattle.vdcp_list.specs.Listings.{ends_from, ids_text, is_of_bytes};
ghost use Rattle.vdcp_value.specs.Ids.{text_of_id};

use std::alloc::{AllocError, Global};
use std::str;
use vdcp_auto::Source;
use vdcp_value::Item;
use vdcp_value::laws::the_text_of_an_id_is_short;

/// A playlist: the events to play, in order, and the texts of their IDs.
#[derive(Debug, Drop)]
pub struct List {
    items: Vec<Item>,
    // The texts of all IDs, one after another.
    text: Vec<u8>,
    // Where each of them ends.
    ends: Vec<usize>,
    ghost text_is: { text.items ≡ ids_text items.items },
    ghost ends_are: { ends.items ≡ ends_from 0 items.items },
    ghost of_bytes: { IsTrue (list_all is_of_bytes items.items) },
}

impl List {
    ghost use Rattle.vdcp_list.specs.List.{items_of};

    pub(crate) fn new(alloc: Global) -> List
        ensures { items_of result ≡ [] }
    {
        List {
            items: Vec::new(alloc),
            text: Vec::new(alloc),
            ends: Vec::new(alloc),
        }
    }

    pub(crate) fn push(&mut self, item: Item, text: &[u8]) -> Result<(), AllocError>
        requires text { text.now ≡ text_of_id item.id }
        requires of_bytes { IsTrue (is_of_bytes item) }
        ensures ok { OnOk result (items_of self.new ≡ items_of self.old ++ item ∷ []) }
        ensures err { OnErr result (items_of self.new ≡ items_of self.old) }
    {
        self.text.reserve(text.len())?;
        self.ends.reserve(1)?;
        self.items.reserve(1)?;
        self.text.extend_from_slice(text).unwrap();
        self.ends.push(self.text.len()).unwrap();
        self.items.push(item).unwrap();
        Ok(())
    }

    /// The texts of all IDs, one after another. The call goes through all of it.
    pub fn text(&self) -> &str
        ensures { result.now ≡ ids_text (items_of self.now) }
    {
        the_text_of_an_id_is_short();
        str::from_utf8(self.text.as_slice()).unwrap()
    }

    /// Where each ID's text ends in `text`, in bytes.
    pub fn ends(&self) -> &[usize]
        ensures { result.now ≡ ends_from 0 (items_of self.now) }
    {
        self.ends.as_slice()
    }
}

impl Source for List {
    ghost use Rattle.vdcp_list.specs.List.{items_of};
    ghost use Rattle.vdcp_list.specs.ListLaws as laws;

    ghost items = { items_of };

    ghost countable = { laws.countable };

    ghost of_bytes = { laws.of_bytes };

    fn len(&self) -> usize {
        self.items.len()
    }

    fn at(&self, k: usize) -> Item {
        self.items[k]
    }
}

//! The list that a controller plays, as a trait.
ghost use Rattle.std.specs.Prelude.{◌≡◌, ◌<◌, ◌^◌, List, Some, All, length, slice_get};
ghost use Rattle.vdcp_value.specs.Parts.{IsItem};
ghost use Rattle.vdcp_value.specs.declared.part.Item.{Item};

use vdcp_value::Item;

/// The list of items to play, which no call changes.
pub trait Source {
    ghost items: { Self → List Item };

    fn len(&self) -> usize
        ensures { result ≡ length (items self.now) };

    fn at(&self, k: usize) -> Item
        requires { k < length (items self.now) }
        ensures { slice_get (items self.now) k ≡ Some result };

    ghost countable: { (source : Self) → length (items source) < 2 ^ 64 };

    /// Start and duration of each part are four bytes.
    ghost of_bytes: { (source : Self) → All IsItem (items source) };
}

impl<S: Source> Source for &S {
    ghost items = { λ source. S.items source.now };

    fn len(&self) -> usize {
        (**self).len()
    }

    fn at(&self, k: usize) -> Item {
        (**self).at(k)
    }

    ghost countable = { λ source. S.countable source.now };

    ghost of_bytes = { λ source. S.of_bytes source.now };
}

//! A source that begins with a later event of another.
ghost use Rattle.std.specs.Prelude.{◌≡◌, ◌≤◌, length};

use std::marker::Model;
use vdcp_auto::Source;
use vdcp_value::Item;

/// The events of a list from one of them on.
#[derive(Drop)]
pub struct Rest<S: Source> {
    source: S,
    from: usize,
}

impl<S: Source> Model for Rest<S> {
    ghost use Rattle.std.specs.Prelude.{◌≤◌, length};
    ghost use Rattle.vdcp_list.specs.Rests.{FromEvent};

    ghost Value = { FromEvent S };

    ghost view = { λ rest. record {
      source = rest.source;
      from = rest.from;
    } };

    ghost invariant = { λ rest. rest.from ≤ length (S.items rest.source) };
}

impl<S: Source> Rest<S> {
    /// The events from this one on, counted from 0.
    pub fn new(source: S, from: usize) -> Self
        requires { from ≤ length (S.items source) }
        ensures { result ≡ record {
          source = source;
          from = from;
        } }
    {
        Rest { source, from }
    }

    pub fn whole(&self) -> &S
        ensures { result.now ≡ self.now.source }
    {
        &self.source
    }

    pub fn from(&self) -> usize
        ensures from { result ≡ self.now.from }
        ensures within { result ≤ length (S.items self.now.source) }
    {
        self.from
    }
}

impl<S: Source> Source for Rest<S> {
    ghost use Rattle.vdcp_list.specs.RestLaws as laws;
    ghost use Rattle.vdcp_list.specs.Rests.{items_left};

    ghost items = { items_left S.items };

    ghost countable = { λ rest. laws.countable rest.from (S.items rest.source) (S.countable rest.source) };

    ghost of_bytes = { λ rest. laws.of_bytes rest.from (S.items rest.source) (S.of_bytes rest.source) };

    fn len(&self) -> usize {
        self.source.len() - self.from
    }

    fn at(&self, k: usize) -> Item {
        self.source.at(self.from + k)
    }
}

//! The bytes that an event puts on the way.
ghost use Rattle.std.specs.Prelude.{◌≡◌, ◌==◌};
ghost use Rattle.std.specs.Cmp.Lexicographic.{pointwise};
ghost use Rattle.std.proofs.Common.{rules};
ghost use Rattle.std.specs.Cmp.Rules.{comparing};

use std::marker::Model;

/// The bytes of an altered burst. If there are none, the burst is gone.
#[derive(Debug, Drop)]
pub struct Burst {
    bytes: Vec<u8>,
}

impl Model for Burst {
    ghost use Rattle.std.specs.Prelude.{ℕ, List};

    ghost Value = { List ℕ };

    ghost view = { λ b. b.bytes.items };
}

impl Burst {
    pub fn new(bytes: Vec<u8>) -> Burst
        ensures { result ≡ bytes.items }
    {
        Burst { bytes }
    }

    pub fn bytes(&self) -> &[u8]
        ensures { result.now ≡ self.now }
    {
        self.bytes.as_slice()
    }
}

impl PartialEq for Burst {
    ghost eq = { pointwise ◌==◌ };

    ghost laws = { Prim.search (comparing, rules) };

    fn eq(&self, other: &Burst) -> bool {
        self.bytes() == other.bytes()
    }
}

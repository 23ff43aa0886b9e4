//! Throws that a seed and the number of a burst decide.
ghost use Rattle.std.specs.Prelude.{◌<◌};

use rand_core::{Rng, SeedableRng};
use rand_xoshiro::SplitMix64;

#[derive(Drop)]
pub struct Dice {
    words: SplitMix64,
}

impl Dice {
    /// The same seed and number give the same throws.
    pub fn new(seed: u32, number: u32) -> Dice {
        let state = (u64::from(seed) << 32) | u64::from(number);
        Dice {
            words: SplitMix64::seed_from_u64(state),
        }
    }

    /// Whether a throw hits, with this chance of 100.
    pub fn hits(&mut self, chance: u8) -> bool {
        self.words.next_u64() % 100 < u64::from(chance)
    }

    /// A number from 0 to below `bound`.
    pub fn below(&mut self, bound: usize) -> usize
        requires { 0 < bound }
        ensures { result < bound }
    {
        (self.words.next_u64() % bound as u64) as usize
    }
}

//! Frame rates.
ghost use Rattle.std.specs.Prelude.{◌≡◌, ◌-◌};
ghost use Rattle.vdcp_value.specs.Clock.{frames_after, millis_of};
ghost use Rattle.vdcp_value.specs.Day.{frames_of_day};
ghost use Rattle.vdcp_value.specs.Labels.{frames_per_second};

#[derive(Clone, Copy, Debug, PartialEq, Eq)]
pub enum Rate {
    F24,
    F25,
    F30,
    /// Drop frame (SMPTE ST 12-1): minutes not divisible by ten lack their first two labels; 30 frames last 1.001 s.
    D30,
}

impl Rate {
    /// A label's frames are below this; at most this many frames pass in a second.
    pub fn frames_per_second(self) -> u32
        ensures { result ≡ frames_per_second self }
    {
        match self {
            Rate::F24 => 24,
            Rate::F25 => 25,
            Rate::F30 | Rate::D30 => 30,
        }
    }

    pub(crate) fn frames_of_day(self) -> u32
        ensures { result ≡ frames_of_day self }
    {
        match self {
            Rate::F24 => 2_073_600,
            Rate::F25 => 2_160_000,
            Rate::F30 => 2_592_000,
            Rate::D30 => 2_589_408,
        }
    }

    /// How many whole frames pass in this time.
    pub fn frames_after(self, nanoseconds: u64) -> u128
        ensures { result ≡ frames_after self nanoseconds }
    {
        let time = u128::from(nanoseconds);
        match self {
            Rate::F24 => time * 24 / 1_000_000_000,
            Rate::F25 => time * 25 / 1_000_000_000,
            Rate::F30 => time * 30 / 1_000_000_000,
            Rate::D30 => time * 30 / 1_001_000_000,
        }
    }

    pub fn frame_nanos(self) -> u64
        ensures over { frames_after self result ≡ 1 }
        ensures least { frames_after self (result - 1) ≡ 0 }
    {
        match self {
            Rate::F24 => 41_666_667,
            Rate::F25 => 40_000_000,
            Rate::F30 => 33_333_334,
            Rate::D30 => 33_366_667,
        }
    }

    /// How long this many frames last, rounded down.
    pub fn millis_of(self, frames: u32) -> u64
        ensures { result ≡ millis_of self frames }
    {
        let frames = u64::from(frames);
        match self {
            Rate::F24 => frames * 1000 / 24,
            Rate::F25 => frames * 1000 / 25,
            Rate::F30 => frames * 1000 / 30,
            Rate::D30 => frames * 1001 / 30,
        }
    }
}

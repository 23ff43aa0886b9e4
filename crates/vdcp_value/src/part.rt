//! Parts of clips, and items.
ghost use Rattle.std.specs.Prelude.{◌≡◌, ◌<◌, ◌↔◌, IsTrue, IsSome, IfSome};
ghost use Rattle.vdcp_value.specs.Bcd.{is_time, frames_in};

use crate::clip_id::ClipId;
use crate::rate::Rate;
use crate::timecode::Timecode;

/// A part of a clip: two packed BCD time codes at the clip's rate, of any bytes; `fits` tests them.
#[derive(Clone, Copy, Debug, PartialEq, Eq)]
pub struct Part {
    /// Counted from the clip's first frame, which is 0.
    pub start: [u8; 4],
    pub duration: [u8; 4],
}

impl Part {
    ghost use Rattle.vdcp_value.specs.Parts.{part_fits};

    /// Whether the part is lawful at this length's rate, has at least one frame, and ends within a clip of this length.
    #[tactic(auto, unfolding(crate::specs::Parts::part_fits))]
    pub fn fits(&self, length: &Timecode) -> bool
        ensures { result ≡ part_fits self.now length.now }
    {
        let rate = length.rate();
        match (frames_in(rate, self.start), frames_in(rate, self.duration)) {
            (Some(start), Some(duration)) => duration >= 1 && start + duration <= length.frames(),
            _ => false,
        }
    }
}

fn frames_in(rate: Rate, bytes: [u8; 4]) -> Option<u32>
    ensures lawful { IsSome result ↔ IsTrue (is_time rate bytes) }
    ensures number { IfSome result (λ frames. frames ≡ frames_in rate bytes) }
    ensures bound { IfSome result (λ frames. frames < 2_592_000) }
{
    match Timecode::from_bcd(rate, bytes) {
        Ok(timecode) => Some(timecode.frames()),
        Err(_) => None,
    }
}

/// What is cued and aired: a clip, or a part of it.
#[derive(Clone, Copy, Debug, PartialEq, Eq)]
pub struct Item {
    pub id: ClipId,
    /// `None` for the whole clip.
    pub part: Option<Part>,
}

//! The clips of a server as a trait, and how long items play.
ghost use Rattle.std.specs.Prelude.{◌≡◌, ◌<◌, IsTrue, IsSome, IfSome, ◌↔◌};
ghost use Rattle.vdcp_value.specs.Bcd.{frames_in};
ghost use Rattle.vdcp_value.specs.Parts.{part_fits};
ghost use Rattle.vdcp_value.specs.Timecodes.{rate_of};
ghost use Rattle.vdcp_port.specs.Clips.{is_playable, frames_on_air};

use vdcp_value::{ClipId, Item, Part, Timecode, laws};

/// A server's clips and how long each is, which no call changes. Parts of a clip are judged at its length's rate.
pub trait Catalogue {
    ghost use Rattle.std.specs.Prelude.{◌≡◌, List};
    ghost use Rattle.vdcp_value.specs.declared.clip_id.ClipId.{ClipId};
    ghost use Rattle.vdcp_value.specs.declared.timecode.Timecode.{Timecode};
    ghost use Rattle.vdcp_port.specs.Clips.{length_of};

    /// Of two pairs with one ID the first counts.
    ghost clips: { Self → List (ClipId × Timecode) };

    fn length(&self, id: &ClipId) -> Option<Timecode>
        ensures { result ≡ length_of (clips self.now) id.now };
}

impl<const N: usize> Catalogue for [(ClipId, Timecode); N] {
    ghost clips = { λ rows. rows };

    fn length(&self, id: &ClipId) -> Option<Timecode> {
        for (known, length) in self {
            if id == known {
                return Some(*length);
            }
        }
        None
    }
}

pub(crate) fn frames_if_playable<C: Catalogue>(catalogue: &C, item: &Item) -> Option<u32>
    ensures playable { IsSome result ↔ IsTrue (is_playable (C.clips catalogue.now) item.now) }
    ensures frames { IfSome result (λ frames. frames ≡ frames_on_air (C.clips catalogue.now) item.now) }
    ensures some { IfSome result (λ frames. 0 < frames) }
{
    let length = catalogue.length(&item.id)?;
    match &item.part {
        None => Some(length.frames().max(1)),
        Some(part) => Some(frames_of_part(part, &length)?.max(1)),
    }
}

fn frames_of_part(part: &Part, length: &Timecode) -> Option<u32>
    ensures fits { IsSome result ↔ IsTrue (part_fits part.now length.now) }
    ensures frames { IfSome result (λ frames. frames ≡ frames_in (rate_of length.now) part.now.duration) }
{
    laws::a_part_that_fits_lies_within();
    match Timecode::from_bcd(length.rate(), part.duration) {
        Ok(duration) => {
            if part.fits(length) {
                Some(duration.frames())
            } else {
                None
            }
        }
        Err(_) => None,
    }
}

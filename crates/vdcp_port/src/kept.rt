//! A port as plain data.
ghost use Rattle.std.specs.Prelude.{◌≡◌, ◌≤◌, ◌<◌, ◌↔◌, IsTrue, IsSome, IfSome, List};
ghost use Rattle.vdcp_value.specs.declared.clip_id.ClipId.{ClipId};
ghost use Rattle.vdcp_value.specs.declared.timecode.Timecode.{Timecode};
ghost use Rattle.vdcp_port.specs.Held.{CanCue, CanKeep, IsCueOf, cued_in};
ghost use Rattle.vdcp_port.specs.Seen.{IsSoundClip, IsSoundCue, clip_left, cue_left, seen_cue};

use crate::access::Access;
use crate::airing::{Clip, Cue};
use crate::catalogue::{Catalogue, frames_if_playable};

/// All that a port knows, but for its catalogue.
#[derive(Clone, Copy, Debug, PartialEq, Eq)]
pub struct Kept {
    pub unit: u8,
    pub number: u8,
    pub cue_frames: u32,
    pub access: Access,
    /// What airs next; its frames are those until the cue is done.
    pub cued: Option<Clip>,
    pub playing: Option<Clip>,
}

impl Kept {
    /// Whether a port over the catalogue can be in this state.
    pub fn stands_over<C: Catalogue>(&self, catalogue: &C) -> bool
        ensures { IsTrue result ↔ CanKeep (C.clips catalogue.now) self.now }
    {
        self.unit <= 15
            && self.cue_frames > 0
            && self.cue_frames <= 1000
            && can_cue(catalogue, &self.cued)
            && can_air(catalogue, &self.playing)
    }
}

fn can_cue<C: Catalogue>(catalogue: &C, kept: &Option<Clip>) -> bool
    ensures { IsTrue result ↔ CanCue (C.clips catalogue.now) kept.now }
{
    match kept {
        None => true,
        Some(clip) => frames_if_playable(catalogue, &clip.item).is_some(),
    }
}

pub(crate) fn cue_of<C: Catalogue>(catalogue: &C, kept: &Option<Clip>) -> Option<Option<Cue>>
    ensures some { IfSome result (λ cue. IsCueOf (C.clips catalogue.now) kept.now cue) }
    ensures accepts { IsSome result ↔ CanCue (C.clips catalogue.now) kept.now }
{
    match kept {
        None => Some(None),
        Some(clip) => {
            let frames = frames_if_playable(catalogue, &clip.item)?;
            Some(Some(Cue {
                item: clip.item,
                left: clip.left,
                frames,
            }))
        }
    }
}

fn can_air<C: Catalogue>(catalogue: &C, kept: &Option<Clip>) -> bool
    ensures { IsTrue result ↔ IsSoundClip (C.clips catalogue.now) kept.now }
{
    match kept {
        None => true,
        Some(clip) => clip.left > 0 && frames_if_playable(catalogue, &clip.item).is_some(),
    }
}

pub(crate) fn clip_of(cued: Option<Cue>) -> Option<Clip>
    ensures seen { cued_in result ≡ seen_cue cued }
    ensures left { clip_left result ≡ cue_left cued }
    ensures kept { (clips : List (ClipId × Timecode)) → IsSoundCue clips cued → CanCue clips result }
{
    let cue = cued?;
    Some(Clip {
        item: cue.item,
        left: cue.left,
    })
}

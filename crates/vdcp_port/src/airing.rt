//! What is cued and what plays, each with its frames.
ghost use Rattle.std.specs.Prelude.{◌≡◌, ◌-◌, nat_eq, List, None, if◌then◌else◌};
ghost use Rattle.vdcp_value.specs.declared.clip_id.ClipId.{ClipId};
ghost use Rattle.vdcp_value.specs.declared.timecode.Timecode.{Timecode};
ghost use Rattle.vdcp_port.specs.Port.{made_ready};
ghost use Rattle.vdcp_port.specs.Seen.{seen_cue, seen_clip, cue_left, clip_left, IsSoundCue, IsSoundClip};

use vdcp_value::Item;

#[derive(Clone, Copy)]
pub(crate) struct Cue {
    pub(crate) item: Item,
    /// The frames until the cue is done; 0 once it is.
    pub(crate) left: u32,
    /// How many frames the item will play.
    pub(crate) frames: u32,
}

/// An item that airs, and the frames until it ends.
#[derive(Clone, Copy, Debug, PartialEq, Eq)]
pub struct Clip {
    pub item: Item,
    pub left: u32,
}

pub(crate) fn finish_cue(cued: Option<Cue>) -> Option<Cue>
    ensures seen { seen_cue result ≡ made_ready (seen_cue cued) }
    ensures left { cue_left result ≡ 0 }
    ensures kept { (clips : List (ClipId × Timecode)) → IsSoundCue clips cued → IsSoundCue clips result }
{
    let cue = cued?;
    Some(Cue {
        item: cue.item,
        left: 0,
        frames: cue.frames,
    })
}

pub(crate) fn count_cue(cued: Option<Cue>) -> (Option<Cue>, bool)
    ensures last { result.1 ≡ nat_eq (cue_left cued) 1 }
    ensures seen { seen_cue result.0
        ≡ (if nat_eq (cue_left cued) 1 then made_ready (seen_cue cued) else seen_cue cued) }
    ensures left { cue_left result.0 ≡ cue_left cued - 1 }
    ensures kept { (clips : List (ClipId × Timecode)) → IsSoundCue clips cued → IsSoundCue clips result.0 }
{
    match cued {
        None => (None, false),
        Some(cue) => {
            let later = Cue {
                item: cue.item,
                left: cue.left.saturating_sub(1),
                frames: cue.frames,
            };
            (Some(later), cue.left == 1)
        }
    }
}

pub(crate) fn count_clip(playing: Option<Clip>) -> (Option<Clip>, bool)
    ensures last { result.1 ≡ nat_eq (clip_left playing) 1 }
    ensures seen { seen_clip result.0 ≡ (if nat_eq (clip_left playing) 1 then None else seen_clip playing) }
    ensures left { clip_left result.0 ≡ clip_left playing - 1 }
    ensures kept { (clips : List (ClipId × Timecode)) → IsSoundClip clips playing → IsSoundClip clips result.0 }
{
    match playing {
        None => (None, false),
        Some(clip) if clip.left == 1 => (None, true),
        Some(clip) => {
            let later = Clip {
                item: clip.item,
                left: clip.left.saturating_sub(1),
            };
            (Some(later), false)
        }
    }
}

//! The struct of what airs or airs next, read and written.
ghost use Rattle.std.specs.Prelude.{◌≡◌, Option, Some, IfSome, IsSome};
ghost use Rattle.vdcp_port.specs.declared.airing.Clip.{Clip};
ghost use Rattle.vdcp_value.specs.declared.part.Item.{Item};
ghost use Rattle.vdcp_value.specs.declared.part.Part.{Part};
ghost use Rattle.vdcp_c.specs.Ports.{IsAired, IsAiring, IsPartOf};

use vdcp_port::Clip;
use vdcp_value::laws::an_id_is_its_bytes;
use vdcp_value::{ClipId, Item, Part};

/// What airs, or airs next.
#[repr(C)]
#[derive(Clone, Copy)]
pub struct vdcp_airing {
    pub id: [u8; 8],
    pub start: [u8; 4],
    pub duration: [u8; 4],
    /// 0: there is none; 1: a whole clip; 2: a part.
    pub what: u32,
    pub left: u32,
}

pub(crate) fn clip_in(a: &vdcp_airing) -> Option<Option<Clip>>
    ensures some { IfSome result (IsAiring a.now) }
    ensures accepts { (clip : Option Clip) → IsAiring a.now clip → result ≡ Some clip }
{
    an_id_is_its_bytes();
    if a.what == 0 {
        return Some(None);
    }
    let part = part_in(a)?;
    Some(Some(Clip {
        item: Item {
            id: ClipId::new(a.id),
            part,
        },
        left: a.left,
    }))
}

fn part_in(a: &vdcp_airing) -> Option<Option<Part>>
    ensures some { IfSome result (IsPartOf a.now) }
    ensures accepts { (part : Option Part) → IsPartOf a.now part → IsSome result }
{
    match a.what {
        1 => Some(None),
        2 => Some(Some(Part {
            start: a.start,
            duration: a.duration,
        })),
        _ => None,
    }
}

pub(crate) fn put_clip(clip: &Option<Clip>, a: &mut vdcp_airing)
    ensures { IsAiring a.new clip.now }
{
    match clip {
        None => a.what = 0,
        Some(clip) => {
            let id = clip.item.id.bytes();
            a.id = id;
            a.left = clip.left;
            match clip.item.part {
                None => a.what = 1,
                Some(part) => {
                    a.what = 2;
                    let start = part.start;
                    let duration = part.duration;
                    a.start = start;
                    a.duration = duration;
                }
            }
        }
    }
}

pub(crate) fn put_aired(item: &Option<Item>, a: &mut vdcp_airing)
    ensures { IsAired a.new item.now }
{
    put_clip(&item.map(|item| Clip { item, left: 0 }), a);
}

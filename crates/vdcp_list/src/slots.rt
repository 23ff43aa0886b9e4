//! A catalogue of fixed room.
ghost use Rattle.std.specs.Prelude.{◌≡◌, ◌↔◌, ◌++◌, ◌∷◌, [], Err, IsNone, IsSome, OnErr, OnOk, length};
ghost use Rattle.vdcp_list.specs.declared.faults.SlotFault.TheVariants.{Full, Twice};
ghost use Rattle.vdcp_port.specs.Clips.{length_of};

use crate::faults::SlotFault;
use arrayvec::ArrayVec;
use std::marker::Model;
use vdcp_port::Catalogue;
use vdcp_value::laws::a_day_has_its_lawful_labels;
use vdcp_value::{ClipId, Rate, Timecode};

/// A catalogue of at most `N` clips, which takes no memory.
#[derive(Drop)]
pub struct Slots<const N: usize> {
    slots: ArrayVec<Slot, N>,
}

#[derive(Clone, Copy)]
struct Slot {
    id: ClipId,
    duration: Timecode,
}

impl Default for Slot {
    fn default() -> Slot {
        a_day_has_its_lawful_labels(Rate::F25);
        Slot {
            id: ClipId::new([0; 8]),
            duration: Timecode::from_frames(Rate::F25, 0).unwrap(),
        }
    }
}

impl<const N: usize> Model for Slots<N> {
    ghost use Rattle.std.specs.Prelude.{List, map};
    ghost use Rattle.vdcp_value.specs.declared.clip_id.ClipId.{ClipId};
    ghost use Rattle.vdcp_value.specs.declared.timecode.Timecode.{Timecode};

    ghost Value = { List (ClipId × Timecode) };

    ghost view = { λ s. map (λ slot. (slot.id, slot.duration)) s.slots.items };
}

impl<const N: usize> Slots<N> {
    pub fn new() -> Self
        ensures { result ≡ [] }
    {
        Slots {
            slots: ArrayVec::new(),
        }
    }

    /// Adds a clip. `Twice`: one of its ID is there. `Full`: `N` others are. Then nothing changes.
    pub fn add(&mut self, id: ClipId, duration: Timecode) -> Result<(), SlotFault>
        ensures ok { OnOk result (self.new ≡ self.old ++ (id, duration) ∷ []) }
        ensures twice { (result ≡ Err Twice) ↔ IsSome (length_of self.old id) }
        ensures full { (result ≡ Err Full) ↔ (IsNone (length_of self.old id) × (length self.old ≡ N)) }
        ensures err { OnErr result (self.new ≡ self.old) }
    {
        if self.length(&id).is_some() {
            return Err(SlotFault::Twice);
        }
        match self.slots.try_push(Slot { id, duration }) {
            Ok(()) => Ok(()),
            Err(_) => Err(SlotFault::Full),
        }
    }
}

impl<const N: usize> Catalogue for Slots<N> {
    ghost clips = { λ slots. slots };

    fn length(&self, id: &ClipId) -> Option<Timecode> {
        for slot in self.slots.as_slice() {
            if *id == slot.id {
                return Some(slot.duration);
            }
        }
        None
    }
}

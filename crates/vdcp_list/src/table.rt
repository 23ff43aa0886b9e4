//! A catalogue in memory, whose clips are found by their IDs.
ghost use Rattle.std.specs.Prelude.{◌≡◌, ◌++◌, ◌∷◌, [], IfOk, IsSome, List, None, OnErr, false, length, option_map, slice_get, true};
ghost use Rattle.vdcp_list.specs.Places.{key_of, place_of};
ghost use Rattle.vdcp_port.specs.Clips.{length_of};
ghost use Rattle.vdcp_value.specs.declared.clip_id.ClipId.{ClipId};

use std::alloc::{AllocError, Global};
use std::collections::HashMap;
use std::collections::hash_map::Entry;
use std::marker::Model;
use vdcp_port::Catalogue;
use vdcp_value::laws::{an_id_is_its_bytes, bytes_are_counted};
use vdcp_value::{ClipId, Timecode};

/// The clips of a catalogue's rows, in their order.
#[derive(Debug, Drop)]
pub struct Table {
    clips: Vec<(ClipId, Timecode)>,
    // The place of each clip, by its ID's bytes as one number.
    places: HashMap<u64, usize>,
}

impl Model for Table {
    ghost use Rattle.std.specs.HashMap.{get};
    ghost use Rattle.std.specs.Prelude.{◌≡◌, List, nat_eq};
    ghost use Rattle.vdcp_list.specs.Places.{key_of, place_of};
    ghost use Rattle.vdcp_value.specs.declared.clip_id.ClipId.{ClipId};
    ghost use Rattle.vdcp_value.specs.declared.timecode.Timecode.{Timecode};

    ghost Value = { List (ClipId × Timecode) };

    ghost view = { λ table. table.clips.items };

    ghost invariant = { λ table. (id : ClipId) → get nat_eq table.places (key_of id) ≡ place_of table.clips.items id };
}

impl Table {
    pub fn new(alloc: Global) -> Table
        ensures { result ≡ [] }
    {
        Table {
            clips: Vec::new(alloc),
            places: HashMap::new(alloc),
        }
    }

    pub fn len(&self) -> usize
        ensures { result ≡ length self.now }
    {
        self.clips.len()
    }

    /// The ID in the row of this place, counted from 0.
    pub fn id_at(&self, place: usize) -> Option<ClipId>
        ensures { result ≡ option_map (λ clip. clip.0) (slice_get self.now place) }
    {
        match self.clips.get(place) {
            Some(clip) => Some(clip.0),
            None => None,
        }
    }

    /// Adds a clip, unless one of its ID is there, and says whether it did.
    pub fn add(&mut self, id: ClipId, duration: Timecode) -> Result<bool, AllocError>
        ensures added { IfOk result (λ added. added ≡ true → self.new ≡ self.old ++ (id, duration) ∷ []) }
        ensures new { IfOk result (λ added. added ≡ true → length_of self.old id ≡ None) }
        ensures there { IfOk result (λ added. added ≡ false → IsSome (length_of self.old id)) }
        ensures same { IfOk result (λ added. added ≡ false → self.new ≡ self.old) }
    {
        an_id_is_its_number();
        let place = self.len();
        self.clips.reserve(1)?;
        match self.places.entry(key_of(&id))? {
            Entry::Occupied(_) => Ok(false),
            Entry::Vacant(entry) => {
                entry.insert(place);
                self.clips.push((id, duration)).unwrap();
                Ok(true)
            }
        }
    }
}

impl Catalogue for Table {
    ghost clips = { λ table. table };

    fn length(&self, id: &ClipId) -> Option<Timecode> {
        match self.places.get(&key_of(id)) {
            Some(place) => Some(self.clips[*place].1),
            None => None,
        }
    }
}

fn key_of(id: &ClipId) -> u64
    ensures { result ≡ key_of id.now }
{
    u64::from_be_bytes(id.bytes())
}

fn an_id_is_its_number()
    ensures { (a b : ClipId) → key_of a ≡ key_of b → a ≡ b }
{
    bytes_are_counted();
    an_id_is_its_bytes();
}

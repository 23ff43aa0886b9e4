//! The catalogue that a C caller lends: a table in order of IDs.
ghost use Rattle.std.specs.Prelude.{◌≡◌, ◌<◌, ◌≤◌, ◌+◌, ◌^◌, ◌↔◌, IsTrue, length, slice_index};
ghost use Rattle.vdcp_port.specs.Clips.{length_of};
ghost use Rattle.vdcp_value.specs.Ids.{id_of, is_same_id};
ghost use Rattle.vdcp_c.specs.Clips.{Ascends, clips_of, ends_at, every_clip, is_before, key_of, keys_of, own_length, place_of, time_of};
ghost use Rattle.vdcp_value.specs.declared.rate.Rate.{Rate};

use crate::clip::vdcp_clip;
use crate::row::id_in;
use vdcp_port::Catalogue;
use vdcp_value::laws::an_id_is_its_bytes;
use vdcp_value::{ClipId, Rate, Timecode};

/// Rows whose length is no time code at the rate don't count.
#[derive(Clone, Copy)]
pub(crate) struct LentClips<'a> {
    pub(crate) rate: Rate,
    pub(crate) rows: &'a [vdcp_clip],
}

impl<'a> Catalogue for LentClips<'a> {
    ghost clips = { λ s. clips_of s.rate s.rows.now };

    fn length(&self, id: &ClipId) -> Option<Timecode> {
        length_in(self.rate, self.rows, id)
    }
}

#[tactic(auto, using(crate::proofs::Places::found_there, crate::proofs::Places::found_nowhere))]
fn length_in(rate: Rate, rows: &[vdcp_clip], id: &ClipId) -> Option<Timecode>
    ensures { result ≡ length_of (clips_of rate rows.now) id.now }
{
    an_id_is_its_bytes();
    match rows.get(place_of(rows, id)) {
        None => None,
        Some(row) => own_of_row(rate, row, id),
    }
}

#[tactic(auto, unfolding(crate::specs::Clips::place_of))]
fn place_of(rows: &[vdcp_clip], id: &ClipId) -> usize
    ensures { result ≡ place_of (keys_of rows.now) (key_of id.now) }
{
    let bits = usize::BITS - rows.len().leading_zeros();
    end_of(rows, key_of(id), bits, 0)
}

fn end_of(rows: &[vdcp_clip], key: u64, bits: u32, at: usize) -> usize
    requires bits { bits ≤ 64 }
    requires within { at + 2 ^ bits ≤ 2 ^ 64 }
    ensures { result ≡ ends_at (is_before (keys_of rows.now) key) bits at }
{
    if bits == 0 {
        return at;
    }
    let k = bits - 1;
    let next = at + power_of_two(k);
    if is_before(rows, key, next - 1) {
        end_of(rows, key, k, next)
    } else {
        end_of(rows, key, k, at)
    }
}

fn power_of_two(k: u32) -> usize
    requires { k < 64 }
    ensures { result ≡ 2 ^ k }
{
    1 << k
}

#[tactic(auto, using(crate::proofs::Places::key_count))]
fn is_before(rows: &[vdcp_clip], key: u64, at: usize) -> bool
    ensures { result ≡ is_before (keys_of rows.now) key at }
{
    at < rows.len() && key_at(rows, at) < key
}

#[tactic(auto, using(crate::proofs::Places::key_there))]
fn key_at(rows: &[vdcp_clip], at: usize) -> u64
    requires { at < length rows.now }
    ensures { result ≡ slice_index (keys_of rows.now) at }
{
    key_of(&id_in(&rows[at].id))
}

#[tactic(auto, unfolding(crate::specs::Clips::key_of))]
fn key_of(id: &ClipId) -> u64
    ensures { result ≡ key_of id.now }
{
    u64::from_be_bytes(id.bytes())
}

#[tactic(auto, using(crate::proofs::Places::not_ascending))]
pub(crate) fn ascends(rows: &[vdcp_clip]) -> bool
    ensures { IsTrue result ↔ Ascends rows.now }
{
    for k in 1..rows.len() {
        if key_at(rows, k - 1) >= key_at(rows, k) {
            return false;
        }
    }
    true
}

#[tactic(auto, using(crate::proofs::Places::all_are_found))]
pub(crate) fn every_row_is_found(rows: &[vdcp_clip])
    ensures { Ascends rows.now → (rate : Rate) → clips_of rate rows.now ≡ every_clip rate rows.now }
{
    let _count = rows.len();
}

fn own_of_row(rate: Rate, row: &vdcp_clip, id: &ClipId) -> Option<Timecode>
    ensures { result ≡ own_length rate row.now id.now }
{
    if has_id(row, id) {
        time_in(rate, &row.length)
    } else {
        None
    }
}

fn has_id(row: &vdcp_clip, id: &ClipId) -> bool
    ensures { result ≡ is_same_id id.now (id_of row.now.id) }
{
    *id == id_in(&row.id)
}

#[tactic(auto, using(crate::proofs::Times::time_read, crate::proofs::Times::no_time))]
fn time_in(rate: Rate, bytes: &[u8; 4]) -> Option<Timecode>
    ensures { result ≡ time_of rate bytes.now }
{
    match Timecode::from_bcd(rate, *bytes) {
        Ok(timecode) => Some(timecode),
        Err(_) => None,
    }
}

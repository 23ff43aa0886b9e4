//! The server's port as a struct, and the calls that it takes.
ghost use Rattle.std.specs.Prelude.{ℕ, ◌≡◌, ◌≢◌, ◌≤◌, ◌<◌, ◌⊎◌, pos, List, Some, IfSome, IsSome, length};
ghost use Rattle.vdcp_frame.specs.Message.{Content};
ghost use Rattle.vdcp_frame.specs.declared.got.Ended.{Ended};
ghost use Rattle.vdcp_port.specs.Answers.{after_burst, aired_for, bytes_at_end, bytes_for, sent_for};
ghost use Rattle.vdcp_port.specs.Clock.{ClockedPort, after_frame, after_message, aired_by, completes_cue, ends_clip, new_port};
ghost use Rattle.vdcp_port.specs.Held.{CanKeep, port_of};
ghost use Rattle.vdcp_port.specs.Port.{state_byte};
ghost use Rattle.vdcp_port.specs.declared.access.Access.{Access};
ghost use Rattle.vdcp_port.specs.declared.kept.Kept.{Kept};
ghost use Rattle.vdcp_value.specs.declared.clip_id.ClipId.{ClipId};
ghost use Rattle.vdcp_value.specs.declared.rate.Rate.{Rate};
ghost use Rattle.vdcp_value.specs.declared.timecode.Timecode.{Timecode};
ghost use Rattle.vdcp_c.specs.Clips.{Ascends, clips_of, every_clip};
ghost use Rattle.vdcp_c.specs.Commands.{flag_code};
ghost use Rattle.vdcp_c.specs.Ports.{IsAired, IsAiredList, IsKept, IsPort, IsRate, access_code};
ghost use Rattle.vdcp_c.specs.Rooms.{Fits, IsPut};
ghost use Rattle.vdcp_c.specs.Told.{IsContent, end_code, bad_message, bad_state, bad_table, bad_value};

use crate::airing::{clip_in, put_aired, put_clip, vdcp_airing};
use crate::clip::vdcp_clip;
use crate::clips::{LentClips, ascends, every_row_is_found};
use crate::code::{BAD_MESSAGE, BAD_STATE, BAD_TABLE, BAD_VALUE, OK, SHORT_ROOM};
use crate::message::{message_in, vdcp_message};
use crate::room::{put_all, put_bytes};
use arrayvec::ArrayVec;
use vdcp_frame::Ended;
use vdcp_port::{Access, Kept, Port, reply_at_end};
use vdcp_value::Rate;

/// A port: all that it knows, but for its clips.
#[repr(C)]
#[derive(Clone, Copy)]
pub struct vdcp_server {
    pub unit: u8,
    pub number: u8,
    /// 0 closed, 1 open, 2 selected.
    pub access: u8,
    /// 0 for 24 frames a second, 1 for 25, 2 for 30, 3 for 30 drop frame.
    pub rate: u8,
    pub cue_frames: u32,
    pub cued: vdcp_airing,
    pub playing: vdcp_airing,
}

fn rate_in(code: u8) -> Option<Rate>
    ensures some { IfSome result (IsRate code) }
    ensures accepts { (rate : Rate) → IsRate code rate → result ≡ Some rate }
    ensures known { code ≤ 3 → IsSome result }
{
    match code {
        0 => Some(Rate::F24),
        1 => Some(Rate::F25),
        2 => Some(Rate::F30),
        3 => Some(Rate::D30),
        _ => None,
    }
}

fn access_in(code: u8) -> Option<Access>
    ensures some { IfSome result (λ a. access_code a ≡ code) }
    ensures accepts { (a : Access) → access_code a ≡ code → result ≡ Some a }
{
    match code {
        0 => Some(Access::Closed),
        1 => Some(Access::Open),
        2 => Some(Access::Selected),
        _ => None,
    }
}

fn kept_in(p: &vdcp_server) -> Option<Kept>
    ensures some { IfSome result (IsKept p.now) }
    ensures accepts { (k : Kept) → IsKept p.now k → result ≡ Some k }
{
    Some(Kept {
        unit: p.unit,
        number: p.number,
        cue_frames: p.cue_frames,
        access: access_in(p.access)?,
        cued: clip_in(&p.cued)?,
        playing: clip_in(&p.playing)?,
    })
}

fn put_kept(kept: &Kept, p: &mut vdcp_server)
    ensures kept { IsKept p.new kept.now }
    ensures rate { p.new.rate ≡ p.old.rate }
{
    p.unit = kept.unit;
    p.number = kept.number;
    p.cue_frames = kept.cue_frames;
    p.access = match kept.access {
        Access::Closed => 0,
        Access::Open => 1,
        Access::Selected => 2,
    };
    put_clip(&kept.cued, &mut p.cued);
    put_clip(&kept.playing, &mut p.playing);
}

fn port_in<'a>(p: &vdcp_server, clips: &'a [vdcp_clip]) -> Option<Port<LentClips<'a>>>
    ensures some { IfSome result (IsPort p.now clips.now) }
    ensures accepts { (port : ClockedPort) → IsPort p.now clips.now port → IsSome result }
{
    let kept = kept_in(p)?;
    let lent = LentClips {
        rate: rate_in(p.rate)?,
        rows: clips,
    };
    if !kept.stands_over(&lent) {
        return None;
    }
    Some(Port::of_kept(lent, &kept))
}

fn put(port: &Port<LentClips>, p: &mut vdcp_server)
    ensures { (rows : List vdcp_clip) (was : ClockedPort) → IsPort p.old rows was → port.now.clips ≡ was.clips →
        IsPort p.new rows port.now }
{
    put_kept(&port.kept(), p);
}

/// The IDs of the clips have to ascend.
#[unsafe(no_mangle)]
pub extern "C" fn vdcp_server_new(
    p: &mut vdcp_server,
    clips: &[vdcp_clip],
    unit: u8,
    number: u8,
    cue_frames: u32,
    rate: u8,
) -> i32
    ensures new { result ≡ pos 0 → (rows : List vdcp_clip) → (r : Rate) × IsRate rate r
        × IsPort p.new rows (new_port (clips_of r rows) unit number cue_frames) }
    ensures ascends { result ≡ pos 0 → Ascends clips.now }
    ensures every { Ascends clips.now → (r : Rate) → clips_of r clips.now ≡ every_clip r clips.now }
    ensures accepts { unit ≤ 15 → 0 < cue_frames → cue_frames ≤ 1000 → rate ≤ 3 → Ascends clips.now → result ≡ pos 0 }
    ensures told { result ≢ pos 0 → (result ≡ bad_value) ⊎ ((result ≡ bad_table) × ¬ Ascends clips.now) }
    ensures refused { result ≢ pos 0 → p.new ≡ p.old }
{
    every_row_is_found(clips);
    if unit > 15 || cue_frames == 0 || cue_frames > 1000 {
        return BAD_VALUE;
    }
    let Some(_rate) = rate_in(rate) else {
        return BAD_VALUE;
    };
    if !ascends(clips) {
        return BAD_TABLE;
    }
    p.rate = rate;
    put_kept(&new_kept(unit, number, cue_frames), p);
    OK
}

fn new_kept(unit: u8, number: u8, cue_frames: u32) -> Kept
    requires unit { unit ≤ 15 }
    requires some { 0 < cue_frames }
    requires at_most { cue_frames ≤ 1000 }
    ensures new { (clips : List (ClipId × Timecode)) → port_of clips result ≡ new_port clips unit number cue_frames }
    ensures can { (clips : List (ClipId × Timecode)) → CanKeep clips result }
{
    Kept {
        unit,
        number,
        cue_frames,
        access: Access::Closed,
        cued: None,
        playing: None,
    }
}

#[unsafe(no_mangle)]
pub extern "C" fn vdcp_server_answer(
    p: &mut vdcp_server,
    clips: &[vdcp_clip],
    message: &vdcp_message,
    out: &mut [u8],
    written: &mut usize,
    aired: &mut vdcp_airing,
) -> i32
    ensures answered { result ≡ pos 0 → (port : ClockedPort) × (content : Content)
        × IsPort p.old clips.now port × IsContent message.now content
        × IsPort p.new clips.now (after_message port content)
        × Fits (bytes_for port content) written.new out.new × IsAired aired.new (aired_by port content) }
    ensures accepts { (port : ClockedPort) (content : Content) → IsPort p.old clips.now port →
        IsContent message.now content → 21 ≤ length out.old → result ≡ pos 0 }
    ensures refused { result ≢ pos 0 → (p.new ≡ p.old) × (out.new ≡ out.old) × (written.new ≡ 0) × (aired.new ≡ aired.old) }
{
    *written = 0;
    let Some(mut port) = port_in(p, clips) else {
        return BAD_STATE;
    };
    let Some(message) = message_in(message) else {
        return BAD_MESSAGE;
    };
    if out.len() < 21 {
        return SHORT_ROOM;
    }
    let unit = port.unit();
    let (reply, item) = port.answer(&message);
    put(&port, p);
    put_aired(&item, aired);
    match reply {
        None => OK,
        Some(reply) => put_bytes(reply.encode(unit).as_slice(), out, written),
    }
}

#[unsafe(no_mangle)]
pub extern "C" fn vdcp_server_answer_burst(
    p: &mut vdcp_server,
    clips: &[vdcp_clip],
    burst: &[u8],
    out: &mut [u8],
    written: &mut usize,
    aired: &mut vdcp_airing,
) -> i32
    ensures answered { result ≢ bad_state → (port : ClockedPort) × IsPort p.old clips.now port
        × IsPut (sent_for port burst.now) out.old result written.new out.new
        × (result ≡ pos 0 → IsPort p.new clips.now (after_burst port burst.now)
        × IsAiredList aired.new (aired_for port burst.now))
        × (result ≢ pos 0 → (p.new ≡ p.old) × (aired.new ≡ aired.old)) }
    ensures accepts { (port : ClockedPort) → IsPort p.old clips.now port → result ≢ bad_state }
    ensures refused { result ≡ bad_state → (p.new ≡ p.old) × (out.new ≡ out.old) × (written.new ≡ 0) × (aired.new ≡ aired.old) }
{
    *written = 0;
    let Some(mut port) = port_in(p, clips) else {
        return BAD_STATE;
    };
    let mut sent: ArrayVec<u8, 12290> = ArrayVec::new();
    let item = port.answer_into(burst, &mut sent);
    if sent.len() > out.len() {
        return SHORT_ROOM;
    }
    put_all(sent.as_slice(), out, written);
    put(&port, p);
    put_aired(&item, aired);
    OK
}

/// `ended` is what `vdcp_reader_silence` gave.
#[unsafe(no_mangle)]
pub extern "C" fn vdcp_silence_answer(ended: u8, out: &mut [u8], written: &mut usize) -> i32
    ensures put { (unit : ℕ) (e : Ended) → pos ended ≡ end_code e → IsPut (bytes_at_end unit e) out.old result written.new out.new }
    ensures refused { 2 < ended → (result ≡ bad_value) × (out.new ≡ out.old) × (written.new ≡ 0) }
{
    *written = 0;
    let ended = match ended {
        0 => return OK,
        1 => Ended::Cut(1),
        2 => Ended::AfterFault,
        _ => return BAD_VALUE,
    };
    match reply_at_end(ended) {
        None => OK,
        Some(reply) => put_bytes(reply.encode(0).as_slice(), out, written),
    }
}

/// A frame passes. `cued` and `ended` get 1 if it was the last of the cue, and of the clip; else 0.
#[unsafe(no_mangle)]
pub extern "C" fn vdcp_server_frame(
    p: &mut vdcp_server,
    clips: &[vdcp_clip],
    cued: &mut u8,
    ended: &mut u8,
) -> i32
    ensures passed { result ≢ bad_state → (port : ClockedPort) × IsPort p.old clips.now port × (result ≡ pos 0)
        × IsPort p.new clips.now (after_frame port)
        × (cued.new ≡ flag_code (completes_cue port)) × (ended.new ≡ flag_code (ends_clip port)) }
    ensures accepts { (port : ClockedPort) → IsPort p.old clips.now port → result ≢ bad_state }
    ensures refused { result ≡ bad_state → (p.new ≡ p.old) × (cued.new ≡ cued.old) × (ended.new ≡ ended.old) }
{
    let Some(mut port) = port_in(p, clips) else {
        return BAD_STATE;
    };
    let (is_done, has_ended) = pass(&mut port);
    put(&port, p);
    *cued = flag(is_done);
    *ended = flag(has_ended);
    OK
}

fn flag(it: bool) -> u8
    ensures { result ≡ flag_code it }
{
    u8::from(it)
}

#[tactic(auto, using(crate::proofs::Aired::frame_clips))]
fn pass(port: &mut Port<LentClips>) -> (bool, bool)
    ensures cue { result.0 ≡ completes_cue port.old }
    ensures clip { result.1 ≡ ends_clip port.old }
    ensures next { port.new ≡ after_frame port.old }
    ensures clips { port.new.clips ≡ port.old.clips }
{
    port.frame()
}

#[unsafe(no_mangle)]
pub extern "C" fn vdcp_server_state(p: &vdcp_server, clips: &[vdcp_clip], state: &mut u8) -> i32
    ensures is { result ≢ bad_state → (port : ClockedPort) × IsPort p.now clips.now port × (result ≡ pos 0)
        × (state.new ≡ state_byte port.state) }
    ensures accepts { (port : ClockedPort) → IsPort p.now clips.now port → result ≢ bad_state }
    ensures refused { result ≡ bad_state → state.new ≡ state.old }
{
    let Some(port) = port_in(p, clips) else {
        return BAD_STATE;
    };
    *state = port.status_byte();
    OK
}

//! Laws of the definitions in `specs/`: each function is there for its contract, which is the law.

ghost use Rattle.std.specs.Prelude.{◌≡◌, ◌+◌, ◌<◌, ◌≤◌, ◌↔◌, All, IsAscii, IsTrue, List, ℕ, length, Ok, Some};
ghost use Rattle.vdcp_value.specs.Bcd.{frames_in, is_time, label_of_bcd};
ghost use Rattle.vdcp_value.specs.Bytes.{AreBytes};
ghost use Rattle.vdcp_value.specs.Day.{frames_of_day, lawful_labels, Stands};
ghost use Rattle.vdcp_value.specs.IdText.{IsIdFault, IsTextOf};
ghost use Rattle.vdcp_value.specs.Ids.{id_bytes, id_of, id_of_text, is_same_id, text_of_id};
ghost use Rattle.vdcp_value.specs.LabelText.{IsTextFault};
ghost use Rattle.vdcp_value.specs.Labels.{is_lawful};
ghost use Rattle.vdcp_value.specs.Parts.{part_fits};
ghost use Rattle.vdcp_value.specs.Timecodes.{bcd_of, frames_of, label_of, rate_of, text_of};
ghost use Rattle.vdcp_value.specs.declared.clip_id.ClipId.{ClipId};
ghost use Rattle.vdcp_value.specs.declared.faults.IdFault.{IdFault};
ghost use Rattle.vdcp_value.specs.declared.faults.TcFault.{TcFault};
ghost use Rattle.vdcp_value.specs.declared.label.Label.{Label};
ghost use Rattle.vdcp_value.specs.declared.part.Part.{Part};
ghost use Rattle.vdcp_value.specs.declared.rate.Rate.{Rate};
ghost use Rattle.vdcp_value.specs.declared.timecode.Timecode.{Timecode};

use crate::clip_id::ClipId;
use crate::faults::{IdFault, TcFault};
use crate::rate::Rate;
use crate::timecode::Timecode;
use arrayvec::ArrayString;

pub fn bytes_are_counted()
    ensures { (n : ℕ) (bytes : List ℕ) → AreBytes n bytes ↔ ((length bytes ≡ n) × All (λ byte. byte < 256) bytes) }
{}

pub fn an_id_is_its_bytes()
    ensures eight { (id : ClipId) → AreBytes 8 (id_bytes id) }
    ensures one { (a b : ClipId) → id_bytes a ≡ id_bytes b → a ≡ b }
    ensures same { (a b : ClipId) → IsTrue (is_same_id a b) ↔ (a ≡ b) }
    ensures of_bytes { (bytes : List ℕ) → AreBytes 8 bytes → id_bytes (id_of bytes) ≡ bytes }
    ensures of_id { (id : ClipId) → id_of (id_bytes id) ≡ id }
{}

pub fn an_id_has_one_text()
    ensures some { (id : ClipId) → IsTextOf (text_of_id id) (id_bytes id) }
    ensures one { (id : ClipId) (text : List ℕ) → IsTextOf text (id_bytes id) → text ≡ text_of_id id }
{}

pub fn the_text_of_an_id_is_short()
    ensures ascii { (id : ClipId) → IsAscii (text_of_id id) }
    ensures some { (id : ClipId) → 1 ≤ length (text_of_id id) }
    ensures most { (id : ClipId) → length (text_of_id id) ≤ 18 }
{}

pub fn a_text_is_of_one_id()
    ensures { (a b : ClipId) (text : List ℕ) → IsTextOf text (id_bytes a) → IsTextOf text (id_bytes b) → a ≡ b }
{}

pub fn a_text_says_its_id()
    ensures { (id : ClipId) (text : List ℕ) → IsTextOf text (id_bytes id) → id_of_text text ≡ id }
{}

pub fn a_refused_text_is_no_ids()
    ensures { (id : ClipId) (text : List ℕ) (fault : IdFault) → IsIdFault text fault → ¬ IsTextOf text (id_bytes id) }
{}

pub fn a_text_has_one_fault()
    ensures { (text : List ℕ) → (a b : IdFault) → IsIdFault text a → IsIdFault text b → a ≡ b }
{}

pub fn a_day_has_its_lawful_labels(rate: Rate)
    ensures number { length (lawful_labels rate) ≡ frames_of_day rate }
    ensures lawful { (label : Label) → IsTrue (is_lawful rate label) ↔ Stands label (lawful_labels rate) }
{}

/// At one rate a frame number, four bytes or a text are at most one time code's.
pub fn a_time_code_is_one()
    ensures by_number { (a b : Timecode) → rate_of a ≡ rate_of b → frames_of a ≡ frames_of b → a ≡ b }
    ensures by_bytes { (a b : Timecode) → rate_of a ≡ rate_of b → bcd_of a ≡ bcd_of b → a ≡ b }
    ensures by_text { (a b : Timecode) → rate_of a ≡ rate_of b → text_of a ≡ text_of b → a ≡ b }
{}

pub fn a_time_code_has_lawful_bytes()
    ensures four { (timecode : Timecode) → AreBytes 4 (bcd_of timecode) }
    ensures lawful { (timecode : Timecode) → IsTrue (is_time (rate_of timecode) (bcd_of timecode)) }
    ensures label { (timecode : Timecode) → label_of_bcd (bcd_of timecode) ≡ label_of timecode }
    ensures number { (timecode : Timecode) → frames_in (rate_of timecode) (bcd_of timecode) ≡ frames_of timecode }
{}

pub fn lawful_bytes_are_a_time_codes()
    ensures { (rate : Rate) (bytes : List ℕ) → AreBytes 4 bytes → IsTrue (is_time rate bytes) →
        (timecode : Timecode) × (rate_of timecode ≡ rate) × (bcd_of timecode ≡ bytes) }
{}

pub fn the_text_of_a_time_code_is_eleven_bytes()
    ensures ascii { (timecode : Timecode) → IsAscii (text_of timecode) }
    ensures eleven { (timecode : Timecode) → length (text_of timecode) ≡ 11 }
{}

pub fn a_refused_text_is_no_time_codes()
    ensures none { (timecode : Timecode) (fault : TcFault) → ¬ IsTextFault (rate_of timecode) (text_of timecode) fault }
    ensures one { (rate : Rate) (text : List ℕ) (a b : TcFault) → IsTextFault rate text a → IsTextFault rate text b →
        a ≡ b }
{}

pub fn a_part_that_fits_lies_within()
    ensures start { (part : Part) (clip : Timecode) → IsTrue (part_fits part clip) →
        IsTrue (is_time (rate_of clip) part.start) }
    ensures duration { (part : Part) (clip : Timecode) → IsTrue (part_fits part clip) →
        IsTrue (is_time (rate_of clip) part.duration) }
    ensures some { (part : Part) (clip : Timecode) → IsTrue (part_fits part clip) →
        1 ≤ frames_in (rate_of clip) part.duration }
    ensures within { (part : Part) (clip : Timecode) → IsTrue (part_fits part clip) →
        frames_in (rate_of clip) part.start + frames_in (rate_of clip) part.duration ≤ frames_of clip }
{}

pub fn a_shown_id_is_read_back(id: &ClipId) -> Result<ClipId, IdFault>
    ensures { result ≡ Ok id.now }
{
    let mut text = ArrayString::new();
    id.show(&mut text);
    ClipId::parse(text.as_str())
}

pub fn a_shown_time_code_is_read_back(timecode: &Timecode) -> Result<Timecode, TcFault>
    ensures { result ≡ Ok timecode.now }
{
    let mut text = ArrayString::new();
    timecode.show(&mut text);
    Timecode::parse(timecode.rate(), text.as_str())
}

pub fn a_packed_time_code_is_read_back(timecode: &Timecode) -> Result<Timecode, TcFault>
    ensures { result ≡ Ok timecode.now }
{
    Timecode::from_bcd(timecode.rate(), timecode.to_bcd())
}

pub fn a_numbered_time_code_is_read_back(timecode: &Timecode) -> Option<Timecode>
    ensures { result ≡ Some timecode.now }
{
    Timecode::from_frames(timecode.rate(), timecode.frames())
}

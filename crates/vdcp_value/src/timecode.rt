//! Time codes: as frame numbers, as bytes and as text.
ghost use Rattle.std.specs.Prelude.{IsTrue, ◌≡◌, ◌<◌, ◌↔◌, length, IsSome, IfSome, IfOk, IfErr, Some, Ok, IsFalse, ℕ, ◌+◌, ◌≤◌, ◌≢◌, List, [], ◌∷◌, ◌++◌, IfNone, IsOk};
ghost use Rattle.vdcp_value.specs.Bcd.{is_bcd, bcd_byte, bcd_value, bcd_fault, frames_in, is_time};
ghost use Rattle.arrayvec.specs.ArrayString.{array_string_len};
ghost use Rattle.vdcp_value.specs.LabelText.{Writes, IsTextFault, two_digits, frames_mark};
ghost use Rattle.vdcp_value.specs.Day.{lawful_labels, frames_of_day};
ghost use Rattle.vdcp_value.specs.Labels.{is_lawful};
ghost use Rattle.vdcp_value.specs.declared.label.Label.{Label};
ghost use Rattle.vdcp_value.specs.declared.faults.TcFault.TheVariants.{NotBcd};

use crate::faults::TcFault;
use crate::label::Label;
use crate::rate::Rate;
use arrayvec::ArrayString;

/// A lawful time code at a rate: hours, minutes and seconds of a day, and a frame below the rate's number of frames.
#[derive(Clone, Copy, Debug, PartialEq, Eq)]
pub struct Timecode {
    rate: Rate,
    label: Label,
    pub ghost lawful: { IsTrue (is_lawful rate label) },
}

impl Timecode {
    ghost use Rattle.vdcp_value.specs.Timecodes.{rate_of, label_of, frames_of, bcd_of, text_of};

    /// `None` if the day has no frame of this number; its first is 0.
    #[tactic(auto, using(crate::proofs::FrameNumbers::length_of_day))]
    pub fn from_frames(rate: Rate, frames: u32) -> Option<Timecode>
        ensures within { IsSome result ↔ (frames < length (lawful_labels rate)) }
        ensures same_rate { IfSome result (λ timecode. rate_of timecode ≡ rate) }
        ensures number { IfSome result (λ timecode. frames_of timecode ≡ frames) }
        ensures accepts { (timecode : Timecode) → rate_of timecode ≡ rate → frames_of timecode ≡ frames →
            result ≡ Some timecode }
    {
        if frames >= rate.frames_of_day() {
            return None;
        }
        let label = Label::of_frame(rate, frames);
        Some(Timecode { rate, label })
    }

    /// How many lawful time codes of the day stand before this one.
    #[tactic(auto, using(crate::proofs::Timecodes::frames_below))]
    pub fn frames(&self) -> u32
        ensures number { result ≡ frames_of self.now }
        ensures within { result < frames_of_day (rate_of self.now) }
        ensures bound { result < 2_592_000 }
    {
        self.label.frame(self.rate)
    }

    pub fn rate(&self) -> Rate
        ensures { result ≡ rate_of self.now }
    {
        self.rate
    }

    /// Frames, seconds, minutes and hours in packed BCD, which doesn't tell drop frame from 30 frames a second.
    pub fn to_bcd(&self) -> [u8; 4]
        ensures { result ≡ bcd_of self.now }
    {
        let label = self.label;
        [
            bcd(label.frames),
            bcd(label.seconds),
            bcd(label.minutes),
            bcd(label.hours),
        ]
    }

    /// Reads what `to_bcd` gives. Faults: the first of `NotBcd`, `OutOfRange` and `Dropped`.
    #[tactic(auto, using(crate::proofs::Bcd::read_frames))]
    pub fn from_bcd(rate: Rate, bytes: [u8; 4]) -> Result<Timecode, TcFault>
        ensures same_rate { IfOk result (λ timecode. rate_of timecode ≡ rate) }
        ensures read { IfOk result (λ timecode. bcd_of timecode ≡ bytes) }
        ensures number { IfOk result (λ timecode. frames_of timecode ≡ frames_in rate bytes) }
        ensures lawful { IsOk result ↔ IsTrue (is_time rate bytes) }
        ensures accepts { (timecode : Timecode) → rate_of timecode ≡ rate → bcd_of timecode ≡ bytes →
            result ≡ Ok timecode }
        ensures refused { IfErr result (λ fault. bcd_fault rate bytes ≡ Some fault) }
    {
        let label = Label {
            frames: from_digits(bytes[0], 1)?,
            seconds: from_digits(bytes[1], 2)?,
            minutes: from_digits(bytes[2], 3)?,
            hours: from_digits(bytes[3], 4)?,
        };
        label.check(rate)?;
        Ok(Timecode { rate, label })
    }

    /// Reads `hh:mm:ss:ff`, or at drop frame `hh:mm:ss;ff`. Faults: the first of `Shape`, `OutOfRange` and `Dropped`.
    pub fn parse(rate: Rate, text: &str) -> Result<Timecode, TcFault>
        ensures same_rate { IfOk result (λ timecode. rate_of timecode ≡ rate) }
        ensures read { IfOk result (λ timecode. text_of timecode ≡ text.now) }
        ensures accepts { (timecode : Timecode) → rate_of timecode ≡ rate → text_of timecode ≡ text.now →
            result ≡ Ok timecode }
        ensures refused { IfErr result (IsTextFault rate text.now) }
    {
        Timecode::parse_ascii(rate, text.as_bytes())
    }

    /// As `parse`, but of bytes, which need not be UTF-8.
    pub fn parse_ascii(rate: Rate, text: &[u8]) -> Result<Timecode, TcFault>
        ensures same_rate { IfOk result (λ timecode. rate_of timecode ≡ rate) }
        ensures read { IfOk result (λ timecode. text_of timecode ≡ text.now) }
        ensures accepts { (timecode : Timecode) → rate_of timecode ≡ rate → text_of timecode ≡ text.now →
            result ≡ Ok timecode }
        ensures refused { IfErr result (IsTextFault rate text.now) }
    {
        let Some(label) = label_in(rate, text) else {
            return Err(TcFault::Shape);
        };
        label.check(rate)?;
        Ok(Timecode { rate, label })
    }

    pub fn show(&self, text: &mut ArrayString<11>)
        ensures { text.new.bytes ≡ text_of self.now }
    {
        text.clear();
        push_digits(text, self.label.hours);
        text.push(':');
        push_digits(text, self.label.minutes);
        text.push(':');
        push_digits(text, self.label.seconds);
        text.push(char::from(frames_mark(self.rate)));
        push_digits(text, self.label.frames);
    }
}

fn frames_mark(rate: Rate) -> u8
    ensures { result ≡ frames_mark rate }
{
    match rate {
        Rate::F24 | Rate::F25 | Rate::F30 => b':',
        Rate::D30 => b';',
    }
}

fn push_digits(text: &mut ArrayString<11>, n: u8)
    requires two { n < 100 }
    requires room { array_string_len text.old + 2 ≤ 11 }
    ensures { text.new.bytes ≡ text.old.bytes ++ two_digits n }
{
    text.push(char::from(b'0' + n / 10));
    text.push(char::from(b'0' + n % 10));
}

fn label_in(rate: Rate, text: &[u8]) -> Option<Label>
    ensures read { IfSome result (λ label. Writes rate text.now label) }
    ensures none { IfNone result ((label : Label) → ¬ Writes rate text.now label) }
{
    let [h, i, first, m, n, second, s, t, mark, f, g] = text else {
        return None;
    };
    if *first != b':' || *second != b':' || *mark != frames_mark(rate) {
        return None;
    }
    Some(Label {
        hours: number(*h, *i)?,
        minutes: number(*m, *n)?,
        seconds: number(*s, *t)?,
        frames: number(*f, *g)?,
    })
}

fn number(tens: u8, units: u8) -> Option<u8>
    ensures read { IfSome result (λ n. (n < 100) × (two_digits n ≡ tens ∷ units ∷ [])) }
    ensures none { IfNone result ((n : ℕ) → n < 100 → two_digits n ≢ tens ∷ units ∷ []) }
{
    if !tens.is_ascii_digit() || !units.is_ascii_digit() {
        return None;
    }
    Some(10 * (tens - b'0') + (units - b'0'))
}

fn bcd(n: u8) -> u8
    requires { n < 100 }
    ensures { result ≡ bcd_byte n }
{
    16 * (n / 10) + n % 10
}

fn from_digits(byte: u8, place: usize) -> Result<u8, TcFault>
    ensures read { IfOk result (λ n. IsTrue (is_bcd byte) × (n ≡ bcd_value byte)) }
    ensures refused { IfErr result (λ fault. IsFalse (is_bcd byte) × (fault ≡ NotBcd place)) }
{
    let (tens, units) = (byte / 16, byte % 16);
    if tens > 9 || units > 9 {
        return Err(TcFault::NotBcd(place));
    }
    Ok(10 * tens + units)
}

//! The label that a time code writes, lawful or not.
ghost use Rattle.std.specs.Prelude.{IsTrue, ◌≡◌, ◌<◌, ◌+◌, ◌-◌, ◌*◌, ◌/◌, ◌%◌, IfOk, IfErr, Some};
ghost use Rattle.vdcp_value.specs.Bcd.{label_fault};
ghost use Rattle.vdcp_value.specs.Day.{frame_number, frames_of_day};
ghost use Rattle.vdcp_value.specs.Labels.{is_lawful, is_dropped};
ghost use Rattle.vdcp_value.specs.declared.rate.Rate.TheVariants.{D30};

use crate::faults::{Field, TcFault};
use crate::rate::Rate;

#[derive(Clone, Copy, Debug, PartialEq, Eq)]
pub struct Label {
    pub hours: u8,
    pub minutes: u8,
    pub seconds: u8,
    pub frames: u8,
}

impl Label {
    pub(crate) fn check(&self, rate: Rate) -> Result<(), TcFault>
        ensures lawful { IfOk result (λ _. IsTrue (is_lawful rate self.now)) }
        ensures refused { IfErr result (λ fault. label_fault rate self.now ≡ Some fault) }
    {
        if u32::from(self.frames) >= rate.frames_per_second() {
            Err(TcFault::OutOfRange(Field::Frames))
        } else if self.seconds >= 60 {
            Err(TcFault::OutOfRange(Field::Seconds))
        } else if self.minutes >= 60 {
            Err(TcFault::OutOfRange(Field::Minutes))
        } else if self.hours >= 24 {
            Err(TcFault::OutOfRange(Field::Hours))
        } else if self.is_dropped(rate) {
            Err(TcFault::Dropped)
        } else {
            Ok(())
        }
    }

    fn is_dropped(&self, rate: Rate) -> bool
        ensures { result ≡ is_dropped rate self.now }
    {
        match rate {
            Rate::F24 | Rate::F25 | Rate::F30 => false,
            Rate::D30 => self.minutes % 10 != 0 && self.seconds == 0 && self.frames < 2,
        }
    }

    #[tactic(auto, using(crate::proofs::FrameNumbers::frame_number_is))]
    pub(crate) fn of_frame(rate: Rate, frame: u32) -> Label
        requires { frame < frames_of_day rate }
        ensures lawful { IsTrue (is_lawful rate result) }
        ensures number { frame_number rate result ≡ frame }
    {
        // If the labels that drop frame leaves out are counted, too, a frame's label is the digits of its place.
        let place = match rate {
            Rate::F24 | Rate::F25 | Rate::F30 => frame,
            Rate::D30 => place_among_all(frame),
        };
        let seconds = place / rate.frames_per_second();
        Label {
            hours: (seconds / 3_600) as u8,
            minutes: (seconds / 60 % 60) as u8,
            seconds: (seconds % 60) as u8,
            frames: (place % rate.frames_per_second()) as u8,
        }
    }

    #[tactic(auto, using(crate::proofs::FrameNumbers::frame_number_is))]
    pub(crate) fn frame(&self, rate: Rate) -> u32
        requires { IsTrue (is_lawful rate self.now) }
        ensures { result ≡ frame_number rate self.now }
    {
        let minutes = 60 * u32::from(self.hours) + u32::from(self.minutes);
        let seconds = 60 * minutes + u32::from(self.seconds);
        let place = rate.frames_per_second() * seconds + u32::from(self.frames);
        match rate {
            Rate::F24 | Rate::F25 | Rate::F30 => place,
            Rate::D30 => place - 2 * (minutes - minutes / 10),
        }
    }
}

/// Drop frame leaves out two labels in each of nine minutes out of ten.
fn place_among_all(frame: u32) -> u32
    requires { frame < frames_of_day D30 }
    ensures passed { result ≡ frame + 2 * (result / 1_800 - result / 18_000) }
    ensures kept { result % 1_800 < 2 → result / 1_800 % 10 ≡ 0 }
{
    let tens = frame / 17_982;
    let within = frame % 17_982;
    let minutes = if within < 1_800 {
        0
    } else {
        1 + (within - 1_800) / 1_798
    };
    frame + 2 * (9 * tens + minutes)
}

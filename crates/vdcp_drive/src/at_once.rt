//! The ear for a line that keeps order: it doesn't wait for silences.
ghost use Rattle.std.specs.Prelude.{◌≡◌, []};
ghost use Rattle.vdcp_drive.specs.Reading.{holds};

use crate::ear::Ear;
use crate::laws;
use std::marker::Model;
use vdcp_auto::Heard;
use vdcp_frame::{Got, Reader};

/// Hears each message once it is whole, also if a silence has torn it; a silence or the close is a time-out. After a
/// fault all is passed over until the next silence. Nothing that waits is dropped.
#[derive(Drop)]
pub struct AtOnce {
    reader: Reader,
}

impl Model for AtOnce {
    ghost use Rattle.vdcp_drive.specs.Reading.{Held, IsAfoot, held_by};

    ghost Value = { Held };

    ghost view = { λ e. held_by e.reader };

    ghost invariant = { λ e. IsAfoot e.reader };
}

impl AtOnce {
    pub fn new() -> Self
        ensures { result ≡ holds [] }
    {
        AtOnce {
            reader: Reader::new(),
        }
    }
}

impl Ear for AtOnce {
    ghost use Rattle.vdcp_drive.specs.Hearing.{at_once};
    ghost use Rattle.vdcp_drive.specs.HearingLaws.{at_once_in_pieces};

    ghost fold = { at_once };

    fn drops(&self) -> bool {
        false
    }

    #[inline]
    fn read(&mut self, unit: u8, piece: &[u8]) -> (usize, Option<Heard>) {
        laws::laws_below();
        let (taken, got) = self.reader.feed(piece);
        match got {
            Got::Message(message) => {
                let heard = Heard::of_message(&message, unit);
                self.reader.silence();
                (taken, Some(heard))
            }
            Got::More => (taken, None),
            Got::Fault(_, _) => (taken, None),
        }
    }

    fn rest(&mut self) -> Option<Heard> {
        if self.reader.has_failed() {
            self.reader.silence();
        }
        None
    }

    ghost pieces = { at_once_in_pieces };
}

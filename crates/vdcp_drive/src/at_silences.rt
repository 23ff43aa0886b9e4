//! The ear that waits for the end of a burst.
use crate::at_once::AtOnce;
use crate::ear::Ear;
use std::marker::Model;
use vdcp_auto::Heard;

/// Hears the first message of a burst that a silence or the close ends, or a time-out; drops what waits before each
/// command.
#[derive(Drop)]
pub struct AtSilences {
    at_once: AtOnce,
    heard: Option<Heard>,
}

impl Model for AtSilences {
    ghost use Rattle.vdcp_drive.specs.Hearing.{Burst, burst_of};

    ghost Value = { Burst };

    ghost view = { λ e. burst_of e.at_once e.heard };
}

impl AtSilences {
    ghost use Rattle.std.specs.Prelude.{◌≡◌, []};
    ghost use Rattle.vdcp_drive.specs.Hearing.{begun};
    ghost use Rattle.vdcp_drive.specs.Reading.{holds};

    pub fn new() -> Self
        ensures { result ≡ begun (holds []) }
    {
        AtSilences {
            at_once: AtOnce::new(),
            heard: None,
        }
    }
}

impl Ear for AtSilences {
    ghost use Rattle.vdcp_drive.specs.Hearing.{at_silences};
    ghost use Rattle.vdcp_drive.specs.HearingLaws.{at_silences_in_pieces};

    ghost fold = { at_silences };

    fn drops(&self) -> bool {
        true
    }

    fn read(&mut self, unit: u8, piece: &[u8]) -> (usize, Option<Heard>) {
        if self.heard.is_some() {
            return (piece.len(), None);
        }
        let (taken, heard) = self.at_once.read(unit, piece);
        self.heard = heard;
        (taken, None)
    }

    fn rest(&mut self) -> Option<Heard> {
        let heard = self.heard;
        self.at_once = AtOnce::new();
        self.heard = None;
        heard
    }

    ghost pieces = { at_silences_in_pieces };
}

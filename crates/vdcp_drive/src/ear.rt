//! The ear of a driver, as a trait.
use vdcp_auto::Heard;

pub trait Ear {
    ghost use Rattle.std.specs.Option.{option_to_list};
    ghost use Rattle.std.specs.Prelude.{◌≡◌, ◌<◌, ◌≤◌, length, take};
    ghost use Rattle.vdcp_drive.specs.Ears.{Fold, IsPiecewise};

    ghost fold: { Fold Self };

    /// Whether what waits is dropped before a command goes out.
    fn drops(&self) -> bool
        ensures { result ≡ fold.drops };

    /// Reads up to the end of one message that is heard at once, or else all. Says how many it took, and what is heard.
    fn read(&mut self, unit: u8, piece: &[u8]) -> (usize, Option<Heard>)
        ensures within { result.0 ≤ length piece.now }
        ensures some { 0 < length piece.now → 0 < result.0 }
        ensures takes { self.new ≡ fold.takes unit (take result.0 piece.now) self.old }
        ensures hears { option_to_list result.1 ≡ fold.hears unit (take result.0 piece.now) self.old };

    /// Gives what is heard when the line is silent, or closed.
    fn rest(&mut self) -> Option<Heard>
        ensures rests { self.new ≡ fold.rests self.old }
        ensures says { result ≡ fold.says self.old };

    ghost pieces: { IsPiecewise fold };
}

//! The bytes of a word.

ghost use Rattle.std.specs.Prelude.{◌≡◌, ◌≤◌, length};
ghost use Rattle.vdcp_frame.specs.Message.{content_of, spelling, IsWritable};
ghost use Rattle.vdcp_words.specs.Messages.{rest_of};

use arrayvec::ArrayVec;
use vdcp_frame::{Message, write};

/// The bytes of CUE WITH DATA: four up to its code, sixteen of data and the checksum.
pub const LONGEST: usize = 21;

#[tactic(auto, using(crate::proofs::WordBytes::short_spelling))]
pub(crate) fn encoded(message: &Message) -> ArrayVec<u8, LONGEST>
    requires writable { IsWritable (content_of message.now) }
    requires short { length (rest_of (content_of message.now)) ≤ 16 }
    ensures { result.items ≡ spelling (content_of message.now) }
{
    let mut bytes = ArrayVec::new();
    write(message, &mut bytes).unwrap();
    bytes
}

//! What damage can make of a burst on the way.
ghost use Rattle.std.specs.Prelude.{◌≡◌};
ghost use Rattle.vdcp_frame.specs.Burst.{messages_of};
ghost use Rattle.vdcp_world.specs.Beginnings.{is_beginning};
ghost use Rattle.vdcp_world.specs.Channel as channel;

use crate::heard;
use vdcp_auto::{Controller, Source};
use vdcp_frame::whole_messages;

pub(crate) const MOST_BYTES: usize = 1024;

/// Whether damage can make these bytes of what is on the way, or of nothing: they are 1,024 at most, and what can be read
/// of them is a beginning of the messages that could be read before.
pub fn can_become(way: &[u8], bytes: &[u8]) -> bool
    ensures { result ≡ channel.can_become way.now bytes.now }
{
    bytes.len() <= MOST_BYTES && is_beginning(bytes, way)
}

pub(crate) fn can_become_up<S: Source>(
    controller: &Controller<S>,
    unit: u8,
    way: &[u8],
    bytes: &[u8],
) -> bool
    ensures { result ≡ channel.can_become_up controller.now.mode unit way.now bytes.now }
{
    if can_become(way, bytes) {
        return true;
    }
    controller.is_confirming() && bytes.len() <= MOST_BYTES && heard::is_receipt_first(bytes, unit)
}

fn is_beginning(burst: &[u8], other: &[u8]) -> bool
    ensures { result ≡ is_beginning (messages_of burst.now) (messages_of other.now) }
{
    vdcp_frame::laws::one_reading();
    vdcp_frame::laws::one_spelling();
    vdcp_frame::laws::written_is_read();
    other.starts_with(&burst[..whole_messages(burst)])
}

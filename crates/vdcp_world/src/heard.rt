//! What a controller hears of a whole burst.
ghost use Rattle.std.specs.Prelude.{◌≡◌};
ghost use Rattle.vdcp_auto.specs.Heard.{heard_in, hears_receipt};

use vdcp_auto::Heard;
use vdcp_frame::Messages;
use vdcp_words::Reply;

pub(crate) fn first_of(burst: &[u8], unit: u8) -> Option<Heard>
    ensures { result ≡ heard_in unit burst.now }
{
    let message = Messages::of(burst).next()?;
    Some(Heard::of_message(&message, unit))
}

pub(crate) fn is_receipt_first(burst: &[u8], unit: u8) -> bool
    ensures { result ≡ hears_receipt (heard_in unit burst.now) }
{
    matches!(
        first_of(burst, unit),
        Some(Heard::Reply(Reply::Ack | Reply::Nak(_)))
    )
}

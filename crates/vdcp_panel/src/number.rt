//! How a call writes the number of an event.
ghost use Rattle.std.specs.Prelude.{◌≡◌};
ghost use Rattle.vdcp_panel.specs.Numbers.{number_in};

use itoa::Buffer;

/// The number that these bytes write in decimal digits, if it is a `usize`. No sign or needless zero may stand before it.
pub fn number_in(digits: &[u8]) -> Option<usize>
    ensures { result ≡ number_in digits.now }
{
    let Ok(text) = str::from_utf8(digits) else {
        return None;
    };
    let Ok(number) = text.parse::<usize>() else {
        return None;
    };
    let mut buffer = Buffer::new();
    if buffer.format(number) != text {
        return None;
    }
    Some(number)
}

//! The name of a channel.

const MOST_BYTES: usize = 64;

/// A name has 1 to 64 bytes, and no control characters.
pub fn is_channel_name(text: &str) -> bool {
    for byte in text.as_bytes() {
        if *byte < b' ' || *byte == 0x7f {
            return false;
        }
    }
    !text.is_empty() && text.len() <= MOST_BYTES
}

//! Messages, and the faults of a burst.

#[derive(Clone, Copy, Debug, PartialEq, Eq)]
pub enum Message<'a> {
    /// The byte 04h.
    Ack,
    /// The byte 05h, and one byte of any value.
    Nak(u8),
    Framed {
        /// The command type, 0 to 15: the upper half of CMD-1.
        kind: u8,
        /// The unit address, 0 to 15: the lower half of CMD-1.
        unit: u8,
        /// CMD-2.
        code: u8,
        /// The data, at most 253 bytes.
        rest: &'a [u8],
    },
}

/// What is wrong with a burst. This profile looks for no new start after a fault.
#[derive(Clone, Copy, Debug, PartialEq, Eq)]
pub enum Fault {
    /// A message begins with another byte than 02h, 04h or 05h.
    BadStart,
    /// The byte count is 0 or 1.
    BadCount(u8),
    /// The bytes from CMD-1 to the checksum don't add up to 0 modulo 256.
    BadSum,
    /// The burst has more than 4,096 bytes, and no fault is among these.
    Long,
}

//! The bits of a state byte.

pub const CUEING: u8 = 0x02;

pub const PLAYING: u8 = 0x04;

pub const CUE_DONE: u8 = 0x80;

//! A row of the clip table that C code hands over.

/// A clip of a server, and its length in packed BCD.
#[repr(C)]
#[derive(Clone, Copy)]
pub struct vdcp_clip {
    pub id: [u8; 8],
    pub length: [u8; 4],
}

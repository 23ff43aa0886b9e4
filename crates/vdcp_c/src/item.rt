//! The struct of a playlist's event.
ghost use Rattle.vdcp_value.specs.Bytes.{AreBytes};

#[repr(C)]
#[derive(Clone, Copy)]
pub struct vdcp_item {
    pub id: [u8; 8],
    pub start: [u8; 4],
    pub duration: [u8; 4],
    /// 0 for the whole clip.
    pub has_part: u32,
    pub ghost start_is: { AreBytes 4 start },
    pub ghost duration_is: { AreBytes 4 duration },
}

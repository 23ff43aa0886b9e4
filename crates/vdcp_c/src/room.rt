//! Bytes put into room that the caller lends.
ghost use Rattle.std.specs.Prelude.{◌≤◌, length};
ghost use Rattle.vdcp_c.specs.Rooms.{Fits, IsPut};

use crate::code::{OK, SHORT_ROOM};

pub(crate) fn put_bytes(bytes: &[u8], out: &mut [u8], written: &mut usize) -> i32
    ensures { IsPut bytes.now out.old result written.new out.new }
{
    if bytes.len() > out.len() {
        *written = 0;
        return SHORT_ROOM;
    }
    put_all(bytes, out, written);
    OK
}

pub(crate) fn put_all(bytes: &[u8], out: &mut [u8], written: &mut usize)
    requires { length bytes.now ≤ length out.old }
    ensures { Fits bytes.now written.new out.new }
{
    out[..bytes.len()].copy_from_slice(bytes);
    *written = bytes.len();
}

//! Data of a message, laid into room that a caller lends.

ghost use Rattle.std.specs.Prelude.{◌≡◌, ◌≤◌, ◌∷◌, ◌++◌, length};
ghost use Rattle.vdcp_value.specs.Bytes.{AreBytes};
ghost use Rattle.vdcp_value.specs.Ids.{id_bytes};
ghost use Rattle.vdcp_frame.specs.Message.{content_of, framed};

use vdcp_frame::Message;
use vdcp_value::ClipId;
use vdcp_value::laws::{an_id_is_its_bytes, bytes_are_counted};

pub(crate) fn message(kind: u8, unit: u8, code: u8, rest: &[u8]) -> Message<'_>
    ensures { content_of result ≡ framed kind unit code rest.now }
{
    Message::Framed {
        kind,
        unit,
        code,
        rest,
    }
}

pub(crate) fn put<'a>(room: &'a mut [u8; 16], bytes: &[u8]) -> &'a [u8]
    requires { length bytes.now ≤ 16 }
    ensures { result.now ≡ bytes.now }
{
    let (front, _) = room.split_at_mut(bytes.len());
    front.copy_from_slice(bytes);
    front
}

pub(crate) fn four(time: &[u8; 4]) -> [u8; 4]
    ensures same { result ≡ time.now }
    ensures bytes { AreBytes 4 result }
{
    let [a, b, c, d] = *time;
    [a, b, c, d]
}

pub(crate) fn joined(id: &ClipId, start: &[u8; 4], duration: &[u8; 4]) -> [u8; 16]
    ensures bytes { result ≡ id_bytes id.now ++ start.now ++ duration.now }
    ensures start { AreBytes 4 start.now }
    ensures duration { AreBytes 4 duration.now }
{
    an_id_is_its_bytes();
    bytes_are_counted();
    let [a, b, c, d, e, f, g, h] = id.bytes();
    let [i, j, k, l] = *start;
    let [m, n, o, p] = *duration;
    [a, b, c, d, e, f, g, h, i, j, k, l, m, n, o, p]
}

pub(crate) fn marked(id: &ClipId) -> [u8; 9]
    ensures { result ≡ 1 ∷ id_bytes id.now }
{
    let [a, b, c, d, e, f, g, h] = id.bytes();
    [0x01, a, b, c, d, e, f, g, h]
}

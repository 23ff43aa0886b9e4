//! Clip IDs: eight bytes, and how their text is read and shown.
ghost use Rattle.std.specs.Prelude.{◌≡◌, ◌≤◌, IfOk, IfErr, IsTrue, IsFalse, Ok, length, ◌∷◌};
ghost use Rattle.vdcp_value.specs.Bytes.{AreBytes};
ghost use Rattle.vdcp_value.specs.IdText.{IsTextOf, IsIdFault, is_plain, without_end_spaces, is_hex_long};

use crate::faults::IdFault;
use crate::id_text::{
    bytes_of_hex, has_edge_space, is_hex_long, is_plain, is_plain_byte, push_hex, push_plain,
    without_end_spaces,
};
use arrayvec::ArrayString;

/// A clip's ID: eight bytes of any values, with exactly one text (this profile). If all are printable ASCII (20h to
/// 7Eh) and the first isn't a space, the text is the bytes without the spaces at their end. Otherwise it is `0x` and
/// sixteen lower-case hexadecimal digits.
#[derive(Clone, Copy, Debug, PartialEq, Eq)]
pub struct ClipId {
    bytes: [u8; 8],
    pub ghost eight: { AreBytes 8 bytes },
}

impl ClipId {
    ghost use Rattle.vdcp_value.specs.Ids.{id_bytes, text_of_id};

    pub fn new(bytes: [u8; 8]) -> ClipId
        ensures { id_bytes result ≡ bytes }
    {
        // Read one by one, so that the prover knows each of them to be a byte.
        let first = bytes[0];
        let second = bytes[1];
        let third = bytes[2];
        let fourth = bytes[3];
        let fifth = bytes[4];
        let sixth = bytes[5];
        let seventh = bytes[6];
        let eighth = bytes[7];
        ClipId {
            bytes: [first, second, third, fourth, fifth, sixth, seventh, eighth],
        }
    }

    pub fn bytes(&self) -> [u8; 8]
        ensures { result ≡ id_bytes self.now }
    {
        self.bytes
    }

    /// Reads an ID's text. The first fault is given: of no bytes `Empty`; of `0x` and sixteen bytes `BadHex`, then
    /// `HasPlainForm`; of any other text `TooLong`, then `BadByte`, then `EdgeSpace`.
    pub fn parse(text: &str) -> Result<ClipId, IdFault>
        ensures read { IfOk result (λ id. IsTextOf text.now (id_bytes id)) }
        ensures accepts { (id : ClipId) → IsTextOf text.now (id_bytes id) → result ≡ Ok id }
        ensures refused { IfErr result (IsIdFault text.now) }
    {
        ClipId::parse_ascii(text.as_bytes())
    }

    /// As `parse`, but of bytes, which need not be UTF-8.
    pub fn parse_ascii(text: &[u8]) -> Result<ClipId, IdFault>
        ensures read { IfOk result (λ id. IsTextOf text.now (id_bytes id)) }
        ensures accepts { (id : ClipId) → IsTextOf text.now (id_bytes id) → result ≡ Ok id }
        ensures refused { IfErr result (IsIdFault text.now) }
    {
        if text.is_empty() {
            Err(IdFault::Empty)
        } else if is_hex_long(text) {
            ClipId::from_hex(text)
        } else {
            ClipId::from_plain(text)
        }
    }

    pub fn show(&self, text: &mut ArrayString<18>)
        ensures text { IsTextOf text.new.bytes (id_bytes self.now) }
        ensures same { text.new.bytes ≡ text_of_id self.now }
    {
        text.clear();
        let plain = without_end_spaces(&self.bytes);
        if is_plain(plain) {
            push_plain(text, plain);
        } else {
            push_hex(text, &self.bytes);
        }
    }

    fn has_plain_form(&self) -> bool
        ensures { result ≡ is_plain (without_end_spaces (id_bytes self.now)) }
    {
        is_plain(without_end_spaces(&self.bytes))
    }

    fn from_plain(text: &[u8]) -> Result<ClipId, IdFault>
        requires some { 1 ≤ length text.now }
        requires plain { IsFalse (is_hex_long text.now) }
        ensures read { IfOk result (λ id. IsTextOf text.now (id_bytes id)) }
        ensures refused { IfErr result (IsIdFault text.now) }
    {
        if text.len() > 8 {
            return Err(IdFault::TooLong);
        }
        let mut bytes = [b' '; 8];
        for (k, byte) in text.iter().enumerate() {
            if !is_plain_byte(*byte) {
                return Err(IdFault::BadByte(k + 1));
            }
            bytes[k] = *byte;
        }
        if has_edge_space(text) {
            return Err(IdFault::EdgeSpace);
        }
        Ok(ClipId::new(bytes))
    }

    fn from_hex(text: &[u8]) -> Result<ClipId, IdFault>
        requires { IsTrue (is_hex_long text.now) }
        ensures read { IfOk result (λ id. IsTextOf text.now (id_bytes id)) }
        ensures refused { IfErr result (IsIdFault text.now) }
    {
        let Some(bytes) = bytes_of_hex(&text[2..]) else {
            return Err(IdFault::BadHex);
        };
        let id = ClipId::new(bytes);
        if id.has_plain_form() {
            return Err(IdFault::HasPlainForm);
        }
        Ok(id)
    }
}

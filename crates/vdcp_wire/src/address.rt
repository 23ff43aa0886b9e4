//! How the text of an address is read.
ghost use Rattle.std.specs.Net.Grammar.{IsSocketV4Text};
ghost use Rattle.std.specs.Prelude.{IfOk, OnErr};
ghost use Rattle.vdcp_wire.specs.Address.{IsAddress};

use std::net::SocketAddrV4;
use thiserror::Error;

#[derive(Clone, Copy, Debug, PartialEq, Eq, Error)]
#[error("not an IPv4 address, a colon and a port number")]
pub struct AddressFault;

/// Reads an IPv4 address, a colon and a TCP port, with no spaces. No name is looked up.
pub fn address_of(text: &str) -> Result<SocketAddrV4, AddressFault>
    ensures address { IfOk result (IsSocketV4Text text.now) }
    ensures no_address { OnErr result (¬ IsAddress text.now) }
{
    match SocketAddrV4::parse_ascii(text.as_bytes()) {
        Ok(address) => Ok(address),
        Err(_) => Err(AddressFault),
    }
}

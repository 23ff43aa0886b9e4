//! How an address is listened at, and a connection taken there.
ghost use Rattle.std.specs.Io.KnownBytes.{Appends, Keeps};
ghost use Rattle.std.specs.Prelude.{◌≡◌, ◌⊎◌, IfErr, OnOk};
ghost use Rattle.vdcp_wire.specs.Listening.{PrintsListening, listening_line};

use std::io;
use std::net::{Net, OpenListener, SocketAddr, SocketAddrV4};
use thiserror::Error;

#[derive(Clone, Copy, Debug, PartialEq, Eq, Error)]
pub enum AcceptFault {
    /// The address can't be listened at, or no connection came there.
    #[error("can't listen at the address")]
    Bind,
    #[error("the writer failed")]
    Writer,
}

/// Listens at an address (for TCP port 0 the system chooses one), writes a line with it to `out`, and flushes that.
pub fn listen_at<R: Net, W: io::Write>(
    rt: &R,
    address: SocketAddrV4,
    out: &mut W,
) -> Result<R::Listener, AcceptFault>
    ensures prints { OnOk result (PrintsListening (W.contents out.old) (W.contents out.new)) }
    ensures refused { IfErr result (λ fault. fault ≡ AcceptFault.Bind →
        Keeps (W.contents out.old) (W.contents out.new)) }
{
    let Ok(listener) = rt.bind(SocketAddr::V4(address)) else {
        return Err(AcceptFault::Bind);
    };
    let Ok(bound) = listener.local_addr() else {
        return Err(AcceptFault::Bind);
    };
    match write_listening(bound, out) {
        Ok(()) => Ok(listener),
        Err(_) => Err(AcceptFault::Writer),
    }
}

/// As `listen_at`, and takes the first connection; others are refused from then on.
pub fn accept_one<R: Net, W: io::Write>(
    rt: &R,
    address: SocketAddrV4,
    out: &mut W,
) -> Result<R::Stream, AcceptFault>
    ensures prints { OnOk result (PrintsListening (W.contents out.old) (W.contents out.new)) }
    ensures refused { IfErr result (λ fault. fault ≡ AcceptFault.Bind →
        Keeps (W.contents out.old) (W.contents out.new) ⊎ PrintsListening (W.contents out.old) (W.contents out.new)) }
{
    let listener = listen_at(rt, address, out)?;
    match listener.accept() {
        Ok((stream, _)) => Ok(stream),
        Err(_) => Err(AcceptFault::Bind),
    }
}

fn write_listening<W: io::Write>(address: SocketAddr, out: &mut W) -> io::Result<()>
    ensures { OnOk result (Appends (W.contents out.old) (W.contents out.new) (listening_line address)) }
{
    writeln!(out, "listening {address}")?;
    out.flush()
}

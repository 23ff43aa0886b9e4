//! How a panel is opened at the address that a text writes.
ghost use Rattle.std.specs.Net.Addr.{IsLoopbackV4};
ghost use Rattle.std.specs.Io.KnownBytes.{Appends};
ghost use Rattle.std.specs.Prelude.{IfOk, IfSome, OnOk};
ghost use Rattle.vdcp_panel.specs.Looks.{panel_line};

use crate::panel::{Names, Panel};
use std::io;
use std::net::{Net, SocketAddrV4};
use std::random::RandomSource;
use std::rt::Clock;

/// Opens a panel at an IPv4 address of this machine alone, a colon and a TCP port (0: the system chooses one). `err` gets
/// the page's address and, if calls are taken, `#` and their token: a browser sends nobody what follows a `#`.
///
/// An error is the status, and its reason is in `err`: 2 if the text is no such address, 3 if it can't be listened at or
/// the writer failed.
pub fn open_panel<R: Net + AllocGlobal + RandomSource + Clock, E: io::Write>(
    rt: &R,
    text: &str,
    takes_calls: bool,
    err: &mut E,
) -> Result<Panel, u8>
    ensures { IfOk result (λ panel. Appends (E.contents err.old) (E.contents err.new) (panel_line takes_calls panel.names)) }
{
    let Some(address) = loopback_address(text) else {
        return Err(told(writeln!(err, "vdcp: panel address"), 2));
    };
    let Ok(panel) = Panel::bind(rt, address) else {
        return Err(told(writeln!(err, "vdcp: panel: cannot bind"), 3));
    };
    match tell_where(&panel.names, takes_calls, err) {
        Ok(()) => Ok(panel),
        Err(_) => Err(3),
    }
}

fn tell_where<E: io::Write>(names: &Names, takes_calls: bool, err: &mut E) -> io::Result<()>
    ensures { OnOk result (Appends (E.contents err.old) (E.contents err.new) (panel_line takes_calls names.now)) }
{
    let address = names.address.as_str();
    if takes_calls {
        let token = names.token.as_str();
        return writeln!(err, "panel http://{address}/#{token}");
    }
    writeln!(err, "panel http://{address}/")
}

fn told(line: io::Result<()>, status: u8) -> u8 {
    match line {
        Ok(()) => status,
        Err(_) => 3,
    }
}

// None if other machines could reach it.
fn loopback_address(text: &str) -> Option<SocketAddrV4>
    ensures { IfSome result (λ address. IsLoopbackV4 address.ip) }
{
    match SocketAddrV4::parse_ascii(text.as_bytes()) {
        Ok(address) if address.ip().is_loopback() => Some(address),
        Ok(_) | Err(_) => None,
    }
}

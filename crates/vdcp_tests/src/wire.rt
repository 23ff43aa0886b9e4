//! What a connection of the system's own does below a wire. (A wait of a minute would end a test.)
ghost use Rattle.std.specs.Prelude.{◌≡◌, IfOk, OnOk};
ghost use Rattle.vdcp_wire.specs.declared.stream.Connection.{Connection};

use crate::expecting::expect;
use std::io::{self, Write};
use std::net::{Ipv4Addr, SocketAddr, TcpListener, TcpStream};
use std::test::Fail;
use std::time::{Duration, Instant};
use vdcp_wire::{Came, PIECE, StreamWire, Waits, Wire, WireFault};

const SHORT: u64 = 40;

const MINUTE: u64 = 60_000;

/// Both ends of a connection within this process.
fn pair(rt: &HostRuntime) -> io::Result<(TcpStream, TcpStream)> {
    let listener = TcpListener::bind(rt, SocketAddr::from((Ipv4Addr::LOCALHOST, 0)))?;
    let near = TcpStream::connect(rt, listener.local_addr()?)?;
    let (far, _) = listener.accept()?;
    Ok((near, far))
}

/// A peer, the other end of its connection, and a wire with this many milliseconds of silence over that end.
fn wire(rt: &HostRuntime, silence: u64) -> io::Result<(TcpStream, TcpStream, StreamWire)>
    ensures { IfOk result (λ ends. ends.2.connection ≡ Connection.Open) }
{
    let (peer, near) = pair(rt)?;
    let wire = StreamWire::new(near.try_clone()?, Duration::from_millis(silence))?;
    Ok((peer, near, wire))
}

/// What comes next.
fn hear<W: Wire>(wire: &mut W) -> Result<Came, WireFault>
    requires { W.failures wire.old ≡ 0 }
    ensures { OnOk result (W.failures wire.new ≡ 0) }
{
    wire.listen(&mut [0; PIECE])
}

// What is sent goes out at once, or waits for ten seconds. What waits is dropped, and a drop doesn't wait. A silence takes
// its time, and then it goes on.
#[test]
fn silence_comes_after_so_long(rt: HostRuntime) -> Result<(), Fail> {
    let short = Duration::from_millis(SHORT);
    let (mut peer, near, mut wire) = wire(&rt, SHORT)?;
    let set = (near.nodelay()?, near.read_timeout()?, near.write_timeout()?);
    let sending = Duration::from_secs(10);
    expect(
        &rt,
        "what is set",
        &set,
        &(true, Some(short), Some(sending)),
    );
    peer.write_all(&[5, 1])?;
    near.peek(&mut [0])?;
    wire.drop_waiting()?;
    let start = Instant::now(&rt)?;
    let first = hear(&mut wire)?;
    let is_late = start.elapsed(&rt)? >= short;
    peer.write_all(&[7])?;
    let second = hear(&mut wire)?;
    let is_refused = StreamWire::new(peer, Duration::ZERO).is_err();
    let expected = (Came::Silence, true, Came::Bytes(1), true);
    expect(
        &rt,
        "what comes",
        &(first, is_late, second, is_refused),
        &expected,
    );
    Ok(())
}

// A close comes at once, also behind what is dropped.
#[test]
fn close_is_no_silence(rt: HostRuntime) -> Result<(), Fail> {
    let (mut peer, near, mut wire) = wire(&rt, MINUTE)?;
    wire.drop_waiting()?;
    peer.write_all(&[5, 1])?;
    near.peek(&mut [0])?;
    drop(peer);
    wire.drop_waiting()?;
    expect(&rt, "the close", &hear(&mut wire)?, &Came::Closed);
    Ok(())
}

// A drop takes what 128 reads do, and the rest stays.
#[test]
fn drop_takes_no_more_than_it_may(rt: HostRuntime) -> Result<(), Fail> {
    let (mut peer, _near, mut wire) = wire(&rt, MINUTE)?;
    peer.set_nonblocking(true)?;
    let count = peer.write(vec![in rt.alloc(); 3; 100_000]?.as_slice())?;
    wire.drop_waiting()?;
    let is_left = matches!(hear(&mut wire)?, Came::Bytes(_));
    expect(
        &rt,
        "the rest",
        &(count > 128 * PIECE, is_left),
        &(true, true),
    );
    Ok(())
}

/// A wire whose peer has closed with bytes unread, which resets the connection.
fn reset(rt: &HostRuntime) -> Result<StreamWire, Fail>
    ensures { IfOk result (λ wire. wire.connection ≡ Connection.Open) }
{
    let (peer, _near, mut wire) = wire(rt, MINUTE)?;
    wire.send(&[1, 2, 3])?;
    peer.peek(&mut [0])?;
    Ok(wire)
}

// A connection that was reset, and one that takes nothing for so long.
#[test]
fn failed_connection_is_no_silence(rt: HostRuntime) -> Result<(), Fail> {
    let heard = hear(&mut reset(&rt)?);
    let dropped = reset(&rt)?.drop_waiting();
    let (_peer, near) = pair(&rt)?;
    let short = Duration::from_millis(SHORT);
    let waits = Waits {
        read: short,
        reads: 1,
        send: short,
    };
    let mut wire = StreamWire::with_waits(near, waits)?;
    let sent = wire.send(vec![in rt.alloc(); 3; 64_000_000]?.as_slice());
    let failed = (Err(WireFault), Err(WireFault), Err(WireFault));
    expect(&rt, "each failure", &(heard, dropped, sent), &failed);
    Ok(())
}

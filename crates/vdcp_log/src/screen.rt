//! A writer to a pipe or a terminal that never blocks.
ghost use Rattle.std.specs.Io.KnownBytes.{Appends};
ghost use Rattle.std.specs.Prelude.{◌≤◌, length, take, IfOk};

use mio::unix::SourceFd;
use mio::{Events, Interest, Poll, Token};
use std::alloc::Global;
use std::io::{self, ErrorKind, Write};
use std::net::Net;
use std::os::fd::{AsRawFd, RawFd};
use std::time::Duration;

// If a pipe or a terminal takes any bytes, it takes this many at once.
const PIECE: usize = 255;

/// Tells whether a read or a write at a descriptor would wait.
#[derive(Drop)]
pub struct Readiness {
    poll: Poll,
    events: Events<Global>,
    interest: Interest,
}

impl Readiness {
    /// Fails if the system doesn't watch the descriptor, as that of a file.
    pub fn of<R: Net + AllocGlobal>(
        rt: &R,
        descriptor: RawFd,
        interest: Interest,
    ) -> io::Result<Self> {
        let poll = Poll::new(rt)?;
        let events = Events::with_capacity(rt.alloc(), 1)?;
        poll.registry()
            .register(&mut SourceFd(&descriptor), Token(0), interest)?;
        Ok(Readiness {
            poll,
            events,
            interest,
        })
    }

    /// Fails with `WouldBlock` if that would wait now.
    pub fn test(&mut self, descriptor: RawFd) -> io::Result<()> {
        // (asked anew, since an event comes at a change alone)
        self.poll
            .registry()
            .reregister(&mut SourceFd(&descriptor), Token(0), self.interest)?;
        self.poll.poll(&mut self.events, Some(Duration::ZERO))?;
        if self.events.is_empty() {
            return Err(io::Error::from(ErrorKind::WouldBlock));
        }
        Ok(())
    }
}

/// A writer that refuses with `WouldBlock` what would wait, since nobody reads the pipe or terminal. A file takes all.
#[derive(Drop)]
pub struct Screen<W> {
    writer: W,
    // None if no write waits.
    room: Option<Readiness>,
}

impl<W: Write + AsRawFd> Screen<W> {
    pub fn new<R: Net + AllocGlobal>(rt: &R, writer: W) -> Self {
        let room = Readiness::of(rt, writer.as_raw_fd(), Interest::WRITABLE).ok();
        Screen { writer, room }
    }
}

impl<W: Write + AsRawFd> Write for Screen<W> {
    fn write(&mut self, bytes: &[u8]) -> io::Result<usize> {
        let descriptor = self.writer.as_raw_fd();
        if let Some(room) = &mut self.room {
            room.test(descriptor)?;
        }
        self.writer.write(&bytes[..bytes.len().min(PIECE)])
    }

    fn flush(&mut self) -> io::Result<()> {
        self.writer.flush()
    }
}

/// Writes as many of the bytes as the writer takes without waiting, and says how many. An interrupted write is made again.
pub fn write_at_once<W: Write>(writer: &mut W, bytes: &[u8]) -> io::Result<usize>
    ensures within { IfOk result (λ n. n ≤ length bytes.now) }
    ensures beginning { IfOk result (λ n. Appends (W.contents writer.old) (W.contents writer.new) (take n bytes.now)) }
{
    let mut written = 0;
    for _ in 0..u64::MAX {
        if written == bytes.len() {
            break;
        }
        match writer.write(&bytes[written..]) {
            Ok(0) => return Err(io::Error::from(ErrorKind::WriteZero)),
            Ok(count) => written += count,
            Err(error) if error.kind() == ErrorKind::WouldBlock => break,
            Err(error) if error.kind() == ErrorKind::Interrupted => continue,
            Err(error) => return Err(error),
        }
    }
    Ok(written)
}

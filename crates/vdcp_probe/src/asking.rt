//! One exchange with a server: a burst is sent, and what comes for it collected, also if it comes late.
ghost use Rattle.std.specs.Prelude.{◌≡◌, IfOk, OnOk};
ghost use Rattle.vdcp_wire.specs.Streams.{failures_of};

use std::alloc::Global;
use std::net::{Net, SocketAddr, SocketAddrV4};
use std::rt::Clock;
use std::time::Duration;
use vdcp_frame::LIMIT;
use vdcp_text::Failure;
use vdcp_wire::{Came, PIECE, StreamWire, Wire};

// How often a server that answers nothing is asked.
const MOST_ASKS: u32 = 3;

// After this many silences an answer counts as ended, also if bytes still come.
const MOST_SILENCES: u64 = 16;

#[derive(Drop)]
pub struct Asker<'a, R: Clock, W: Wire> {
    rt: &'a R,
    pub wire: W,
    patience: Duration,
}

/// What came for a burst.
#[derive(Drop)]
pub struct Answer {
    /// As much as a reader reads, and a piece more.
    pub bytes: Vec<u8>,
    /// Whether the line was silent then; else bytes still came after 16 silences.
    pub has_ended: bool,
}

impl Answer {
    /// The fault is `Spent` if it hasn't ended.
    pub fn whole(self) -> Result<Vec<u8>, Failure<'static>> {
        if self.has_ended {
            Ok(self.bytes)
        } else {
            Err(Failure::Spent)
        }
    }
}

impl<'a, R: Net + Clock + AllocGlobal> Asker<'a, R, StreamWire<R::Stream>> {
    /// An answer has ended once nothing came for `silence` milliseconds. The fault is `Connect` or `LineFailed`.
    pub fn connect(rt: &'a R, address: SocketAddrV4, silence: u32) -> Result<Self, Failure<'static>>
        ensures { IfOk result (λ asker. failures_of asker.wire.connection ≡ 0) }
    {
        let Ok(stream) = rt.connect(SocketAddr::V4(address)) else {
            return Err(Failure::Connect);
        };
        let silence = u64::from(silence);
        match StreamWire::new(stream, Duration::from_millis(silence)) {
            Ok(wire) => Ok(Asker {
                rt,
                wire,
                patience: Duration::from_millis(silence * MOST_SILENCES),
            }),
            Err(_) => Err(Failure::LineFailed),
        }
    }
}

impl<'a, R: Clock + AllocGlobal, W: Wire> Asker<'a, R, W> {
    pub fn alloc(&self) -> Global {
        self.rt.alloc()
    }

    /// Asks until something comes. The faults are those of `ask`, and `Unanswered` if three times nothing came.
    pub fn ask_again(&mut self, burst: &[u8]) -> Result<Answer, Failure<'static>>
        requires { W.failures self.old.wire ≡ 0 }
        ensures works { OnOk result (W.failures self.new.wire ≡ 0) }
    {
        'asks: for _ in 0..MOST_ASKS {
            let answer = self.ask(burst)?;
            if !answer.bytes.is_empty() {
                return Ok(answer);
            }
        }
        Err(Failure::Unanswered)
    }

    /// Drops what waits on the wire, sends a burst, and gives what comes until the line is silent, or for 16 silences. The
    /// fault is `LineFailed`, `LineClosed` (the other end has closed it) or `Memory`.
    pub fn ask(&mut self, burst: &[u8]) -> Result<Answer, Failure<'static>>
        requires { W.failures self.old.wire ≡ 0 }
        ensures works { OnOk result (W.failures self.new.wire ≡ 0) }
    {
        if self.wire.drop_waiting().is_err() || self.wire.send(burst).is_err() {
            return Err(Failure::LineFailed);
        }
        self.hear()
    }

    /// Drops what comes until the line was silent twice; says whether something came. The faults are `ask`'s, and `Spent`.
    pub fn settle(&mut self) -> Result<bool, Failure<'static>>
        requires { W.failures self.old.wire ≡ 0 }
        ensures works { OnOk result (W.failures self.new.wire ≡ 0) }
    {
        let soon = self.hear()?.whole()?;
        let late = self.hear()?.whole()?;
        Ok(!soon.is_empty() || !late.is_empty())
    }

    fn hear(&mut self) -> Result<Answer, Failure<'static>>
        requires { W.failures self.old.wire ≡ 0 }
        ensures works { OnOk result (W.failures self.new.wire ≡ 0) }
    {
        let mut bytes = Vec::new(self.alloc());
        let end = self.now().saturating_add(self.patience);
        'listens: for _ in 0..u64::MAX {
            if self.hear_piece(&mut bytes)? {
                let has_ended = true;
                return Ok(Answer { bytes, has_ended });
            }
            if end <= self.now() {
                break;
            }
        }
        let has_ended = false;
        Ok(Answer { bytes, has_ended })
    }

    // Says whether the line was silent. Bytes beyond what a reader reads aren't kept.
    fn hear_piece(&mut self, bytes: &mut Vec<u8>) -> Result<bool, Failure<'static>>
        requires { W.failures self.old.wire ≡ 0 }
        ensures works { OnOk result (W.failures self.new.wire ≡ 0) }
    {
        let mut buffer = [0; PIECE];
        match self.wire.listen(&mut buffer) {
            Ok(Came::Bytes(n)) => {
                if bytes.len() <= LIMIT {
                    bytes.extend_from_slice(&buffer[..n])?;
                }
                Ok(false)
            }
            Ok(Came::Silence) => Ok(true),
            Ok(Came::Closed) => Err(Failure::LineClosed),
            Err(_) => Err(Failure::LineFailed),
        }
    }

    // A clock that can't be read stands still.
    fn now(&self) -> Duration {
        self.rt.monotonic().unwrap_or(Duration::ZERO)
    }
}

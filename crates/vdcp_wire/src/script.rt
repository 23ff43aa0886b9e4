//! The wire in memory, which follows a script of entries.
ghost use Rattle.std.specs.Prelude.{◌≡◌, false, length, take, OnOk, OnErr, IfOk, Some};
ghost use Rattle.vdcp_wire.specs.Scripts.{closes};
ghost use Rattle.vdcp_wire.specs.Wires.{arrival_of, adds_came, brought, has_closed, MayCome, FitsBuffer};

use crate::wire::{Came, PIECE, Wire, WireFault};
use std::alloc::{AllocError, Allocator};
use std::marker::Model;

/// What happens on a `ScriptWire`.
#[derive(Drop)]
pub enum Entry<A: Allocator> {
    /// These bytes come, in pieces of `PIECE` at most.
    Came(Vec<u8, A>),
    Silence,
    Closed,
    /// These bytes come, unless they are dropped before they are listened to.
    Stale(Vec<u8, A>),
}

#[derive(Clone, Copy)]
struct Failure {
    call: u64,
    part: usize,
}

/// A wire in memory: `listen` gives the entries of a script in order, and then that the other end has closed;
/// `drop_waiting` takes the `Stale` entries that stand next. If memory is refused, the wire fails.
#[derive(Drop)]
pub struct ScriptWire<A: Allocator + Copy> {
    alloc: A,
    entries: Vec<Entry<A>, A>,
    /// The entry that comes next, and how many of its bytes were given.
    next: usize,
    given: usize,
    sent: Vec<u8, A>,
    /// What each `listen` gave up to the first close, and all bytes of these, one after another.
    came: Vec<Came, A>,
    bytes: Vec<u8, A>,
    drops: Vec<usize, A>,
    closed: bool,
    calls: u64,
    failure: Option<Failure>,
    failed: bool,
}

impl<A: Allocator + Copy> Model for ScriptWire<A> {
    ghost use Rattle.std.specs.Prelude.{◌≡◌, length};
    ghost use Rattle.vdcp_wire.specs.Wires.{has_closed};
    ghost use Rattle.vdcp_wire.specs.Scripts.{Script, arrivals, brought_in_all};

    ghost Value = { Script };

    ghost view = { λ w. record {
      told = record { sent = w.sent.items; came = arrivals w.came.items w.bytes.items; drops = w.drops.items };
      failed = w.failed;
    } };

    ghost invariant = { λ w. (w.closed ≡ has_closed (arrivals w.came.items w.bytes.items))
        × (brought_in_all w.came.items ≡ length w.bytes.items) };
}

impl<A: Allocator + Copy> ScriptWire<A> {
    ghost use Rattle.vdcp_wire.specs.Wires.{nothing_told};

    pub fn new(alloc: A, entries: Vec<Entry<A>, A>) -> Self
        ensures told { result.told ≡ nothing_told }
        ensures works { result.failed ≡ false }
    {
        ScriptWire {
            alloc,
            entries,
            next: 0,
            given: 0,
            sent: Vec::new(alloc),
            came: Vec::new(alloc),
            bytes: Vec::new(alloc),
            drops: Vec::new(alloc),
            closed: false,
            calls: 0,
            failure: None,
            failed: false,
        }
    }

    pub fn sent(&self) -> &[u8]
        ensures { result.now ≡ self.now.told.sent }
    {
        self.sent.as_slice()
    }

    /// How many bytes had been sent at each `drop_waiting`.
    pub fn drops(&self) -> &[usize]
        ensures { result.now ≡ self.now.told.drops }
    {
        self.drops.as_slice()
    }

    /// Makes the `call`-th call, from 1, fail. A send sends the first `part` of its bytes before that, or all.
    pub fn fail_at(&mut self, call: u64, part: usize)
        ensures { self.new ≡ self.old }
    {
        self.failure = Some(Failure { call, part });
    }

    fn count_call(&mut self) -> Option<usize>
        ensures { self.new ≡ self.old }
    {
        self.calls = self.calls.saturating_add(1);
        match self.failure {
            Some(failure) if failure.call == self.calls => Some(failure.part),
            Some(_) | None => None,
        }
    }

    fn peek(&self, buffer: &mut [u8; PIECE]) -> Came
        ensures { FitsBuffer result }
    {
        match self.entries.get(self.next) {
            Some(Entry::Came(bytes) | Entry::Stale(bytes)) => {
                put(bytes.as_slice(), self.given, buffer)
            }
            Some(Entry::Silence) => Came::Silence,
            Some(Entry::Closed) | None => Came::Closed,
        }
    }

    fn advance(&mut self, came: Came)
        ensures { self.new ≡ self.old }
    {
        if let Came::Bytes(n) = came {
            self.given = self.given.saturating_add(n);
        }
        let is_over = match self.entries.get(self.next) {
            Some(Entry::Came(bytes) | Entry::Stale(bytes)) => bytes.len() <= self.given,
            Some(Entry::Silence) => true,
            Some(Entry::Closed) | None => false,
        };
        if is_over {
            self.next += 1;
            self.given = 0;
        }
    }

    fn pass_stale(&mut self)
        ensures { self.new ≡ self.old }
    {
        let next = behind_stale(&self.entries, self.next);
        if next != self.next {
            self.next = next;
            self.given = 0;
        }
    }

    fn keep(&mut self, came: Came, buffer: &[u8; PIECE]) -> Result<(), AllocError>
        requires fits { FitsBuffer came }
        requires open { has_closed self.old.told.came ≡ false }
        ensures came { OnOk result (Some self.new.told ≡ adds_came (arrival_of came buffer.now) (Some self.old.told)) }
        ensures kept { OnErr result (self.new ≡ self.old) }
        ensures failed { self.new.failed ≡ self.old.failed }
    {
        self.came.reserve(1)?;
        self.bytes.extend_from_slice(piece_of(came, buffer))?;
        self.came.push_reserved(came);
        self.closed = is_close(came);
        Ok(())
    }

    fn give(&mut self, buffer: &mut [u8; PIECE]) -> Result<Came, AllocError>
        ensures fits { IfOk result FitsBuffer }
        ensures came { IfOk result (λ c. Some self.new.told ≡ adds_came (arrival_of c buffer.new)
            (Some self.old.told)) }
        ensures may_come { IfOk result (λ c. MayCome (arrival_of c buffer.new) (Some self.old.told)) }
        ensures kept { OnErr result (self.new ≡ self.old) }
        ensures failed { self.new.failed ≡ self.old.failed }
    {
        if self.is_closed() {
            return Ok(Came::Closed);
        }
        let came = self.peek(buffer);
        self.keep(came, buffer)?;
        self.advance(came);
        Ok(came)
    }

    fn is_closed(&self) -> bool
        ensures { result ≡ has_closed self.now.told.came }
    {
        self.closed
    }
}

fn piece_of(came: Came, buffer: &[u8; PIECE]) -> &[u8]
    requires { FitsBuffer came }
    ensures bytes { result.now ≡ take (brought came) buffer.now }
    ensures counts { length result.now ≡ brought came }
{
    match came {
        Came::Bytes(n) => &buffer[..n],
        Came::Silence | Came::Closed => &[],
    }
}

fn is_close(came: Came) -> bool
    ensures { result ≡ closes came }
{
    match came {
        Came::Bytes(_) | Came::Silence => false,
        Came::Closed => true,
    }
}

fn put(bytes: &[u8], given: usize, buffer: &mut [u8; PIECE]) -> Came
    ensures { FitsBuffer result }
{
    let rest = &bytes[given.min(bytes.len())..];
    let n = rest.len().min(PIECE);
    buffer[..n].copy_from_slice(&rest[..n]);
    Came::Bytes(n)
}

impl<A: Allocator + Copy> Wire for ScriptWire<A> {
    ghost use Rattle.std.specs.Prelude.{Some, if◌then◌else◌};
    ghost use Rattle.vdcp_wire.specs.Acts.{Tells};
    ghost use Rattle.vdcp_wire.specs.Scripts.{fails_at_most_once};

    ghost does = { λ act old new. Tells act (Some old.told) (Some new.told) };

    ghost told = { λ w. Some w.told };

    ghost failures = { λ w. if w.failed then 1 else 0 };

    fn send(&mut self, bytes: &[u8]) -> Result<(), WireFault> {
        let part = self.count_call();
        let size = part.unwrap_or(bytes.len()).min(bytes.len());
        let grown = self.sent.extend_from_slice(&bytes[..size]);
        if part.is_none() && grown.is_ok() {
            return Ok(());
        }
        self.failed = true;
        Err(WireFault)
    }

    fn listen(&mut self, buffer: &mut [u8; PIECE]) -> Result<Came, WireFault> {
        if self.count_call().is_none() {
            if let Ok(came) = self.give(buffer) {
                return Ok(came);
            }
        }
        self.failed = true;
        Err(WireFault)
    }

    fn drop_waiting(&mut self) -> Result<(), WireFault> {
        if self.count_call().is_some() || self.drops.push(self.sent.len()).is_err() {
            self.failed = true;
            return Err(WireFault);
        }
        self.pass_stale();
        Ok(())
    }

    ghost fails_once = { λ w. fails_at_most_once w.failed };

    ghost tells = { λ _ _ _ told. told };
}

fn behind_stale<A: Allocator>(entries: &Vec<Entry<A>, A>, from: usize) -> usize {
    let mut next = from;
    'stale: while let Some(Entry::Stale(_)) = entries.get(next) {
        next += 1;
    }
    next
}

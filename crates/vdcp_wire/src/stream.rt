//! The wire over a connection: how it sends, listens and fails.
ghost use Rattle.std.specs.Io.KnownBytes.{Appends, Consumes, IsAtEnd, Keeps, WriteAppends};
ghost use Rattle.std.specs.Io.{WritesAtMost};
ghost use Rattle.std.specs.Duration.{as_nanos};
ghost use Rattle.std.specs.Prelude.{◌≡◌, ◌-◌, ◌^◌, min, take, Err, IfOk, IsOk, None, Ok, OnErr, OnOk, Some};
ghost use Rattle.std.specs.Option.{option_map};
ghost use Rattle.vdcp_wire.specs.Acts.{OfFront, brings, fails};
ghost use Rattle.vdcp_wire.specs.Answers.{IsRead, IsSent, heard, lapses, limit_of};
ghost use Rattle.vdcp_wire.specs.Streams.{came_of, connection_behind, failures_of, Counts, Listens, StreamDoes, heard_of, left_behind, Takes};
ghost use Rattle.vdcp_wire.specs.Wires.{arrival_of, brought, FitsBuffer};

use crate::answering::Answering;
use crate::duplex::Duplex;
use crate::wire::{Came, PIECE, Wire, WireFault};
use std::io::{self, ErrorKind};
use std::marker::Model;
use std::net::TcpStream;
use std::rt::Clock;
use std::time::Duration;

/// Read limit of `drop_waiting`, so that a peer that goes on sending can't hold it up.
const MOST_READS: u32 = 128;

/// How many seconds a send waits if the other end takes nothing, unless another time is set.
const SENDING: u64 = 10;

#[derive(Clone, Copy, Debug, PartialEq, Eq)]
pub struct Waits {
    /// How long a read waits, 1 millisecond or more.
    pub read: Duration,
    /// How many reads in a row wait in vain before it is a silence, 1 or more.
    pub reads: u32,
    /// How long a send waits for each part of its bytes, 1 microsecond or more.
    pub send: Duration,
}

#[derive(Clone, Copy, Debug, PartialEq, Eq)]
enum Connection {
    Open,
    Closed,
    Failed,
}

/// A wire over a connection. `listen` waits for the time of a silence; `send` waits for its own for each part of its
/// bytes, and then the wire has failed.
///
/// If the connection's bytes are known, `send` appends exactly its bytes, or a beginning of them if it fails, and
/// `listen` gives exactly what comes next. `drop_waiting` doesn't wait: it drops what at most 128 reads take.
///
/// A read in vain is a silence if it is the last of as many in a row as `Waits` says, and else brings no bytes, as an
/// interrupted read does. A connection that the system gives up, since nothing is acknowledged any more, has failed.
/// With a limit an answer ends at last: once it has passed since the last send, and bytes have come since, `listen` is
/// silent and takes nothing until the next send.
#[derive(Drop)]
pub struct StreamWire<S: Duplex + Drop = TcpStream, C: Clock + Drop = Unclocked> {
    stream: S,
    connection: Connection,
    /// How many reads in vain are a silence, and how many of them are left until the next one.
    reads: u32,
    left: u32,
    answering: Option<Answering<C>>,
}

/// No clock: it can't be read.
#[derive(Drop)]
pub struct Unclocked;

impl Clock for Unclocked {
    fn monotonic(&self) -> io::Result<Duration> {
        Err(io::Error::from(ErrorKind::Unsupported))
    }

    fn since_1970(&self) -> io::Result<Duration> {
        Err(io::Error::from(ErrorKind::Unsupported))
    }
}

impl<S: Duplex + Drop, C: Clock + Drop> Model for StreamWire<S, C> {
    ghost use Rattle.vdcp_wire.specs.Answers.{limit_of};
    ghost use Rattle.vdcp_wire.specs.Streams.{Streamed};

    ghost Value = { Streamed };

    ghost view = { λ w. record {
      connection = w.connection;
      ahead = S.ahead w.stream;
      written = S.written w.stream;
      reads = w.reads;
      left = w.left;
      answer = limit_of w.answering;
    } };
}

impl<S: Duplex + Drop> StreamWire<S> {
    /// Makes a wire on which a silence of `silence`, 1 millisecond or more, ends a burst, and a send waits for ten
    /// seconds.
    pub fn new(stream: S, silence: Duration) -> io::Result<Self>
        ensures open { IfOk result (λ wire. wire.connection ≡ Connection.Open) }
        ensures ahead { IfOk result (λ wire. wire.ahead ≡ S.ahead stream) }
        ensures written { IfOk result (λ wire. wire.written ≡ S.written stream) }
    {
        StreamWire::with_waits(stream, waits_for(silence))
    }

    /// As `new`, but it waits as `waits` says. What is sent goes out at once.
    pub fn with_waits(stream: S, waits: Waits) -> io::Result<Self>
        ensures open { IfOk result (λ wire. wire.connection ≡ Connection.Open) }
        ensures ahead { IfOk result (λ wire. wire.ahead ≡ S.ahead stream) }
        ensures written { IfOk result (λ wire. wire.written ≡ S.written stream) }
        ensures reads { IfOk result (λ wire. (wire.reads ≡ waits.reads) × (wire.left ≡ waits.reads)) }
        ensures unlimited { IfOk result (λ wire. wire.answer ≡ None) }
    {
        StreamWire::over(stream, waits, None)
    }
}

impl<S: Duplex + Drop, C: Clock + Drop> StreamWire<S, C> {
    /// As `new`, but an answer goes on for `limit` at most, by this clock.
    pub fn with_limit(stream: S, silence: Duration, limit: Duration, clock: C) -> io::Result<Self>
        ensures open { IfOk result (λ wire. wire.connection ≡ Connection.Open) }
        ensures ahead { IfOk result (λ wire. wire.ahead ≡ S.ahead stream) }
        ensures written { IfOk result (λ wire. wire.written ≡ S.written stream) }
        ensures limit { IfOk result (λ wire. option_map (λ l. l.most) wire.answer ≡ Some (min (as_nanos limit) (2 ^ 64 - 1))) }
    {
        StreamWire::over(
            stream,
            waits_for(silence),
            Some(Answering::new(clock, limit)),
        )
    }

    fn over(stream: S, waits: Waits, answering: Option<Answering<C>>) -> io::Result<Self>
        ensures open { IfOk result (λ wire. wire.connection ≡ Connection.Open) }
        ensures ahead { IfOk result (λ wire. wire.ahead ≡ S.ahead stream) }
        ensures written { IfOk result (λ wire. wire.written ≡ S.written stream) }
        ensures reads { IfOk result (λ wire. (wire.reads ≡ waits.reads) × (wire.left ≡ waits.reads)) }
        ensures answer { IfOk result (λ wire. wire.answer ≡ limit_of answering) }
    {
        stream.set_nodelay(true)?;
        stream.set_read_timeout(Some(waits.read))?;
        stream.set_write_timeout(Some(waits.send))?;
        Ok(StreamWire {
            stream,
            connection: Connection::Open,
            reads: waits.reads,
            left: waits.reads,
            answering,
        })
    }

    fn drop_reads(&mut self) -> io::Result<()>
        requires { failures_of self.old.connection ≡ 0 }
        ensures taken { Takes self.old.ahead self.new.ahead }
        ensures apart { Keeps self.old.written self.new.written }
        ensures closed { self.old.connection ≡ Connection.Closed → IsOk result × (self.new ≡ self.old) }
        ensures works { failures_of self.new.connection ≡ 0 }
        ensures reads { self.new.reads ≡ self.old.reads }
        ensures anew { self.old.connection ≡ Connection.Open → self.new.left ≡ self.new.reads }
    {
        if let Connection::Closed = self.connection {
            return Ok(());
        }
        self.left = self.reads;
        self.stream.set_nonblocking(true)?;
        let behind = read_waiting(&mut self.stream);
        self.stream.set_nonblocking(false)?;
        self.connection = behind?;
        Ok(())
    }

    fn read(&mut self, buffer: &mut [u8; PIECE]) -> Result<Came, WireFault>
        requires { self.old.connection ≡ Connection.Open }
        ensures fits { IfOk result FitsBuffer }
        ensures brings { IfOk result (λ c. StreamDoes (brings (arrival_of c buffer.new)) self.old self.new) }
        ensures kept { OnErr result (StreamDoes fails self.old self.new × Keeps self.old.ahead self.new.ahead) }
        ensures end { result ≡ Ok Came.Closed → IsAtEnd self.new.ahead }
        ensures counts { IfOk result (λ came. Counts came self.old self.new) }
        ensures reads { self.new.reads ≡ self.old.reads }
        ensures next { IfOk result (λ came. self.new.connection ≡ connection_behind came self.old.connection) }
        ensures answer { self.new.answer ≡ self.old.answer }
        ensures failed { OnErr result (failures_of self.new.connection ≡ 1) }
    {
        let Ok(read) = came_of(self.stream.read_some(buffer)) else {
            return Err(self.fail());
        };
        let came = self.count_read(read);
        if let Came::Closed = came {
            self.connection = Connection::Closed;
        }
        Ok(came)
    }

    fn count_read(&mut self, read: Came) -> Came
        ensures told { result ≡ heard_of read self.old.left }
        ensures left { self.new ≡ record self.old { left = left_behind read self.old.reads self.old.left } }
    {
        match read {
            Came::Bytes(0) => {}
            Came::Silence if self.left > 1 => {
                self.left -= 1;
                return Came::Bytes(0);
            }
            Came::Bytes(_) | Came::Silence | Came::Closed => self.left = self.reads,
        }
        read
    }

    fn note_sent(&mut self)
        ensures noted { IsSent self.old.answer self.new.answer }
        ensures rest { self.new ≡ record self.old { answer = self.new.answer } }
    {
        if let Some(answering) = &mut self.answering {
            answering.note_sent();
        }
    }

    fn is_over(&mut self) -> bool
        ensures over { result ≡ lapses self.old.answer self.new.answer }
        ensures read { IsRead self.old.answer self.new.answer }
        ensures rest { self.new ≡ record self.old { answer = self.new.answer } }
    {
        match &mut self.answering {
            Some(answering) => answering.is_over(),
            None => false,
        }
    }

    fn note(&mut self, came: Came)
        ensures { self.new ≡ record self.old { answer = heard came self.old.answer } }
    {
        if let Some(answering) = &mut self.answering {
            answering.note(came);
        }
    }

    fn fail(&mut self) -> WireFault
        ensures { self.new ≡ record self.old { connection = Connection.Failed } }
    {
        self.connection = Connection::Failed;
        WireFault
    }
}

impl<S: Duplex + Drop, C: Clock + Drop> Wire for StreamWire<S, C> {
    ghost use Rattle.std.specs.Prelude.{None, refl};
    ghost use Rattle.vdcp_wire.specs.Acts.{sends, brings, drops, fails};
    ghost use Rattle.vdcp_wire.specs.Streams.{StreamDoes, counted_once};
    ghost use Rattle.vdcp_wire.specs.Wires.{arrival_of};

    ghost does = { StreamDoes };

    ghost told = { λ _. None };

    ghost failures = { λ w. failures_of w.connection };

    #[tactic(auto, using(crate::proofs::Streaming::wrote_front))]
    fn send(&mut self, bytes: &[u8]) -> Result<(), WireFault>
        requires { failures_of self.old.connection ≡ 0 }
        ensures sends { OnOk result (StreamDoes (sends bytes.now) self.old self.new) }
        ensures sends_some { OnErr result (OfFront bytes.now (λ front. StreamDoes (sends front) self.old self.new)) }
        ensures connection { OnOk result (self.new.connection ≡ self.old.connection) }
        ensures reads { self.new.reads ≡ self.old.reads }
        ensures left { OnOk result (self.new.left ≡ self.old.left) }
        ensures noted { OnOk result (IsSent self.old.answer self.new.answer) }
        ensures failed { OnErr result (failures_of self.new.connection ≡ 1) }
    {
        let mut at = 0;
        'writes: for _ in 0..u32::MAX {
            if at == bytes.len() {
                self.note_sent();
                return Ok(());
            }
            match self.stream.write_some(&bytes[at..]) {
                Ok(n) if n > 0 => at += n,
                Err(error) if error.kind() == ErrorKind::Interrupted => continue,
                Ok(_) | Err(_) => return Err(self.fail()),
            }
        }
        Err(self.fail())
    }

    fn listen(&mut self, buffer: &mut [u8; PIECE]) -> Result<Came, WireFault>
        requires { failures_of self.old.connection ≡ 0 }
        ensures fits { IfOk result FitsBuffer }
        ensures brings { IfOk result (λ c. StreamDoes (brings (arrival_of c buffer.new)) self.old self.new) }
        ensures fails { OnErr result (StreamDoes fails self.old self.new) }
        ensures kept { OnErr result (Keeps self.old.ahead self.new.ahead) }
        ensures end { self.old.connection ≡ Connection.Open → result ≡ Ok Came.Closed → IsAtEnd self.new.ahead }
        ensures silence { self.old.connection ≡ Connection.Open → IfOk result (λ came. Listens came self.old self.new) }
        ensures reads { self.new.reads ≡ self.old.reads }
        ensures next { IfOk result (λ came. self.new.connection ≡ connection_behind came self.old.connection) }
        ensures closed { self.old.connection ≡ Connection.Closed → (result ≡ Ok Came.Closed) × (self.new ≡ self.old) }
        ensures failed { OnErr result (failures_of self.new.connection ≡ 1) }
    {
        if let Connection::Closed = self.connection {
            return Ok(Came::Closed);
        }
        if self.is_over() {
            return Ok(Came::Silence);
        }
        match self.read(buffer) {
            Ok(came) => {
                self.note(came);
                Ok(came)
            }
            Err(fault) => Err(fault),
        }
    }

    fn drop_waiting(&mut self) -> Result<(), WireFault>
        requires { failures_of self.old.connection ≡ 0 }
        ensures drops { OnOk result (StreamDoes drops self.old self.new) }
        ensures fails { OnErr result (StreamDoes fails self.old self.new) }
        ensures closed { self.old.connection ≡ Connection.Closed → IsOk result × (self.new ≡ self.old) }
        ensures reads { self.new.reads ≡ self.old.reads }
        ensures anew { self.old.connection ≡ Connection.Open → OnOk result (self.new.left ≡ self.new.reads) }
        ensures works { OnOk result (failures_of self.new.connection ≡ 0) }
        ensures failed { OnErr result (failures_of self.new.connection ≡ 1) }
    {
        match self.drop_reads() {
            Ok(()) => Ok(()),
            Err(_) => Err(self.fail()),
        }
    }

    ghost fails_once = { λ w. counted_once w.connection };

    ghost tells = { λ _ _ _ _. refl };
}

fn waits_for(silence: Duration) -> Waits {
    Waits {
        read: silence,
        reads: 1,
        send: Duration::from_secs(SENDING),
    }
}

fn read_waiting<S: Duplex>(stream: &mut S) -> io::Result<Connection>
    ensures taken { Takes (S.ahead stream.old) (S.ahead stream.new) }
    ensures apart { Keeps (S.written stream.old) (S.written stream.new) }
    ensures works { IfOk result (λ connection. failures_of connection ≡ 0) }
{
    let mut buffer = [0; PIECE];
    'reads: for _ in 0..MOST_READS {
        match came_of(stream.read_some(&mut buffer))? {
            Came::Bytes(_) => {}
            Came::Silence => return Ok(Connection::Open),
            Came::Closed => return Ok(Connection::Closed),
        }
    }
    Ok(Connection::Open)
}

fn came_of(read: io::Result<usize>) -> io::Result<Came>
    ensures { result ≡ came_of read }
{
    match read {
        Ok(0) => Ok(Came::Closed),
        Ok(n) => Ok(Came::Bytes(n)),
        Err(error) => match error.kind() {
            ErrorKind::WouldBlock => Ok(Came::Silence),
            ErrorKind::Interrupted => Ok(Came::Bytes(0)),
            _ => Err(error),
        },
    }
}

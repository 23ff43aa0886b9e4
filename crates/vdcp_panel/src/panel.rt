//! The panel: it listens, and serves those that ask, without waiting.
ghost use Rattle.hex.specs.Hex.{encode_lower};
ghost use Rattle.std.specs.Prelude.{◌≡◌, ◌/◌, ◌<◌, ◌≤◌, false, IfOk, length, string_bytes};
ghost use Rattle.std.specs.Bool.{OnFalse};
ghost use Rattle.std.specs.declared.net.SocketAddr.{SocketAddr};
ghost use Rattle.vdcp_panel.specs.Looks.{AreNamesOf, IsReady, Looks, rested_after};
ghost use Rattle.vdcp_panel.specs.Seen.{IsGateOf, ServesSome};

use crate::call::Calls;
use crate::desk::Desk;
use crate::gate::{Gate, Name};
use crate::peers::{MOST_PEERS, Peers};
use crate::view::View;
use mio::net::{TcpListener, TcpStream};
use mio::{Events, Interest, Poll, Token};
use std::alloc::{AllocError, Global};
use std::hash::RandomState;
use std::net::{Net, SocketAddr, SocketAddrV4};
use std::random::RandomSource;
use std::rt::Clock;
use std::time::{Duration, Instant};
use std::{io, mem};

// How many connections one call takes at most. Only a flood brings more, and of a flood only the last are answered.
const MOST_NEW: usize = 256;

// After a call nothing is done for this many times as long as it took, so a panel has at most a twentieth of the time.
const REST: u64 = 19;

// In bytes.
const TOKEN: usize = 16;

#[derive(Drop)]
pub struct Panel {
    alloc: Global,
    listener: TcpListener,
    peers: Peers<TcpStream>,
    poll: Poll,
    events: Events<Global>,
    pub names: Names,
    // Whether the last call did something: then there may be more to do.
    is_busy: bool,
    began: Instant,
    // What the clock showed last, in nanoseconds since `began`; nothing is done before `next`; something is to be done at
    // `due`, in milliseconds.
    now: u64,
    next: u64,
    due: u64,
}

#[derive(Drop)]
pub struct Names {
    pub address: String,
    pub address_origin: String,
    pub local: String,
    pub local_origin: String,
    /// What a request for a call has to have.
    pub token: String,
}

impl Panel {
    /// Listens at this address, and makes the token of its calls.
    pub fn bind<R: Net + AllocGlobal + RandomSource + Clock>(
        rt: &R,
        address: SocketAddrV4,
    ) -> io::Result<Panel>
        ensures token { IfOk result (λ panel. length (string_bytes panel.names.token) ≡ 32) }
        ensures names { IfOk result (λ panel. (bound : SocketAddr) × AreNamesOf bound panel.names) }
        ensures ready { IfOk result IsReady }
    {
        let began = Instant::now(rt)?;
        let peers = Peers::new(rt.alloc(), RandomState::new(rt)?)?;
        let events = Events::with_capacity(rt.alloc(), MOST_PEERS)?;
        let (listener, poll) = listen_at(rt, address)?;
        let names = Names::new(rt, listener.local_addr()?)?;
        Ok(Panel {
            alloc: rt.alloc(),
            listener,
            peers,
            poll,
            events,
            names,
            is_busy: true,
            began,
            now: 0,
            next: 0,
            due: u64::MAX,
        })
    }

    /// Shows a view as far as that can be done without waiting: takes up to 256 connections, and of each makes a write, a
    /// read, an answer and a write. `calls` gains those that were asked for. Afterwards nothing is done for nineteen times as
    /// long as this took. (While the clock can't be read, no time passes.)
    pub fn serve_some<R: Clock, V: View>(&mut self, clock: &R, view: &V, calls: &mut Calls)
        ensures serves { ServesSome V.page_bytes V.state_bytes V.about self.old.names view.now calls.old.items calls.new.items }
        ensures looks { Looks self.old self.new }
    {
        let began = self.read_clock(clock);
        let now = began / 1_000_000;
        if began < self.next || !self.has_work(now) {
            return;
        }
        let took = self.take_some(now);
        let held = mem::replace(calls, Calls::new());
        let mut desk = desk_over(self.alloc, &self.names, view, held);
        self.peers.turn_each(&mut desk, now);
        *calls = desk.calls;
        self.peers.drop_gone();
        self.is_busy = took | self.peers.are_busy();
        self.due = self.peers.due();
        let ended = self.read_clock(clock);
        self.next = rested_after(began, ended);
    }

    fn read_clock<R: Clock>(&mut self, clock: &R) -> u64
        ensures now { result ≡ self.new.now }
        ensures later { self.old.now ≤ self.new.now }
        ensures rest { self.new ≡ record self.old { now = self.new.now } }
    {
        if let Ok(time) = self.began.elapsed(clock) {
            let nanoseconds = u64::try_from(time.as_nanos()).unwrap_or(u64::MAX);
            self.now = self.now.max(nanoseconds);
        }
        self.now
    }

    fn has_work(&mut self, now: u64) -> bool
        ensures none { OnFalse result ((self.old.is_busy ≡ false) × (now < self.old.due)) }
        ensures rest { self.new ≡ record self.old { poll = self.new.poll; events = self.new.events } }
    {
        self.is_busy || self.due <= now || self.has_news()
    }

    // If the system can't say, something may have changed.
    fn has_news(&mut self) -> bool
        ensures { self.new ≡ record self.old { poll = self.new.poll; events = self.new.events } }
    {
        match self.poll.poll(&mut self.events, Some(Duration::ZERO)) {
            Ok(()) => !self.events.is_empty(),
            Err(_) => true,
        }
    }

    fn take_some(&mut self, now: u64) -> bool
        ensures { self.new ≡ record self.old { poll = self.new.poll; peers = self.new.peers } }
    {
        let mut took = false;
        'news: for _ in 0..MOST_NEW {
            let Ok((stream, _)) = self.listener.accept() else {
                return took;
            };
            took = true;
            self.take(stream, now);
        }
        took
    }

    // A connection that the system refuses to watch is dropped.
    fn take(&mut self, stream: TcpStream, now: u64)
        ensures { self.new ≡ record self.old { poll = self.new.poll; peers = self.new.peers } }
    {
        let mut stream = stream;
        let interest = Interest::READABLE | Interest::WRITABLE;
        let registry = self.poll.registry();
        if registry.register(&mut stream, Token(1), interest).is_ok() {
            let _ = stream.set_nodelay(true);
            self.peers.add(stream, now);
        }
    }
}

fn rested_after(began: u64, ended: u64) -> u64
    ensures { result ≡ rested_after began ended }
{
    ended.saturating_add(ended.saturating_sub(began).saturating_mul(REST))
}

fn listen_at<R: Net>(rt: &R, address: SocketAddrV4) -> io::Result<(TcpListener, Poll)> {
    let poll = Poll::new(rt)?;
    let mut listener = TcpListener::bind(rt, SocketAddr::V4(address))?;
    poll.registry()
        .register(&mut listener, Token(0), Interest::READABLE)?;
    Ok((listener, poll))
}

impl Names {
    fn new<R: AllocGlobal + RandomSource>(rt: &R, address: SocketAddr) -> io::Result<Names>
        ensures token { IfOk result (λ names. length (string_bytes names.token) ≡ 32) }
        ensures texts { IfOk result (AreNamesOf address) }
    {
        let alloc = rt.alloc();
        let port = address.port();
        Ok(Names {
            address: format!(in alloc; "{address}")?,
            address_origin: format!(in alloc; "http://{address}")?,
            local: format!(in alloc; "localhost:{port}")?,
            local_origin: format!(in alloc; "http://localhost:{port}")?,
            token: token_text(alloc, &draw(rt)?)?,
        })
    }

    fn gate(&self) -> Gate<'_>
        ensures { IsGateOf self.now result }
    {
        Gate {
            address: Name {
                host: self.address.as_str(),
                origin: self.address_origin.as_str(),
            },
            local: Name {
                host: self.local.as_str(),
                origin: self.local_origin.as_str(),
            },
            token: self.token.as_str(),
        }
    }
}

fn desk_over<'a, V: View>(alloc: Global, names: &'a Names, view: &'a V, calls: Calls) -> Desk<'a, V>
    ensures gate { IsGateOf names.now result.gate }
    ensures view { result.view.now ≡ view.now }
    ensures calls { result.calls ≡ calls }
{
    let gate = names.gate();
    Desk {
        alloc,
        gate,
        view,
        calls,
        is_known: false,
    }
}

fn draw<R: RandomSource>(rt: &R) -> io::Result<[u8; TOKEN]> {
    let mut bytes = [0; TOKEN];
    rt.fill_bytes(&mut bytes)?;
    Ok(bytes)
}

fn token_text(alloc: Global, bytes: &[u8; TOKEN]) -> Result<String, AllocError>
    ensures hex { IfOk result (λ text. string_bytes text ≡ encode_lower bytes.now) }
    ensures long { IfOk result (λ text. length (string_bytes text) ≡ 32) }
{
    let text = hex::encode(alloc, bytes)?;
    Ok(text)
}

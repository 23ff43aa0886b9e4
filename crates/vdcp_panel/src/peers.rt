//! The connections of a panel, which take turns.
ghost use Rattle.std.specs.Prelude.{◌≡◌, ◌⊎◌, ◌<◌, ◌≤◌, [], IfOk, IfSome, None, Some, filter, length, not};
ghost use Rattle.vdcp_panel.specs.Lasting.{are_busy, first_due, is_gone};
ghost use Rattle.vdcp_panel.specs.Seen.{AnswersAtDesk};
ghost use Rattle.vdcp_panel.specs.Turned.{HaveTurned, IsKnownAt, IsNoneBefore, known_of};

use crate::desk::Desk;
use crate::peer::Peer;
use crate::view::View;
use http_server::{Config, Connection};
use http1::Limits;
use std::alloc::{AllocError, Global};
use std::hash::RandomState;
use std::io::{Read, Write};

pub const MOST_PEERS: usize = 8;

// `max_pending`: no answer is made while one waits to be sent.
const CONFIG: Config = Config {
    limits: Limits {
        max_head_len: 8192,
        max_extensions_len: 64,
        max_trailers_len: 64,
    },
    max_body_len: 256,
    max_pending: 0,
    read_size: 2048,
};

#[derive(Drop)]
pub struct Peers<T: Read + Write> {
    pub peers: Vec<Peer<T>>,
    alloc: Global,
    keys: RandomState,
}

impl<T: Read + Write + Drop> Peers<T> {
    pub fn new(alloc: Global, keys: RandomState) -> Result<Self, AllocError>
        ensures { IfOk result (λ peers. peers.peers.items ≡ []) }
    {
        let peers = Vec::with_capacity(alloc, MOST_PEERS)?;
        Ok(Peers { peers, alloc, keys })
    }

    /// Adds a connection. A ninth closes the one at which nothing moved for longest, a known one only if all are known.
    pub fn add(&mut self, stream: T, now: u64)
        ensures known { length (known_of self.old.peers.items) < 8 →
            known_of self.new.peers.items ≡ known_of self.old.peers.items }
    {
        if self.peers.len() >= MOST_PEERS {
            self.drop_idlest();
        }
        let connection = Connection::new(self.alloc, self.keys, CONFIG);
        drop(self.peers.push(Peer::new(stream, connection, now)));
    }

    fn drop_idlest(&mut self)
        ensures known { length (known_of self.old.peers.items) < length self.old.peers.items →
            known_of self.new.peers.items ≡ known_of self.old.peers.items }
    {
        if let Some((place, _)) = self.idlest(false) {
            drop(self.peers.remove(place));
        } else if let Some((place, _)) = self.idlest(true) {
            drop(self.peers.remove(place));
        }
    }

    fn idlest(&self, is_known: bool) -> Option<(usize, u64)>
        ensures there { IfSome result (λ found. IsKnownAt self.now.peers.items found.0 is_known) }
        ensures none { result ≡ None → IsNoneBefore self.now.peers.items (length self.now.peers.items) is_known }
    {
        let mut idlest = None;
        'places: for place in 0..self.peers.len() {
            let peer = &self.peers[place];
            if peer.is_known == is_known {
                idlest = Some(idler(idlest, (place, peer.active())));
            }
        }
        idlest
    }

    pub fn turn_each<V: View>(&mut self, desk: &mut Desk<'_, V>, now: u64)
        ensures { HaveTurned (AnswersAtDesk V.page_bytes V.state_bytes V.about) desk.old self.old.peers.items self.new.peers.items desk.new }
    {
        let mut k = 0;
        'turns: while k < self.peers.len() {
            self.peers[k].turn(desk, now);
            k += 1;
        }
    }

    pub fn drop_gone(&mut self)
        ensures { self.new.peers.items ≡ filter (λ peer. not (is_gone peer)) self.old.peers.items }
    {
        self.peers.retain(|peer| !peer.is_gone());
    }

    pub fn are_busy(&self) -> bool
        ensures { result ≡ are_busy self.now.peers.items }
    {
        are_busy(self.peers.as_slice())
    }

    /// When the next one is given up, unless an answer is made before; the end of time if there is none.
    pub fn due(&self) -> u64
        ensures { result ≡ first_due self.now.peers.items }
    {
        first_due(self.peers.as_slice())
    }
}

fn are_busy<T: Read + Write>(peers: &[Peer<T>]) -> bool
    ensures { result ≡ are_busy peers.now }
{
    match peers {
        [] => false,
        [first, rest @ ..] => first.is_busy() || are_busy(rest),
    }
}

fn first_due<T: Read + Write>(peers: &[Peer<T>]) -> u64
    ensures { result ≡ first_due peers.now }
{
    match peers {
        [] => u64::MAX,
        [first, rest @ ..] => first.due().min(first_due(rest)),
    }
}

// Each place comes with the time at which bytes moved there last: the earlier one wins.
fn idler(found: Option<(usize, u64)>, other: (usize, u64)) -> (usize, u64)
    ensures one { (result ≡ other) ⊎ (found ≡ Some result) }
    ensures idler { (result.1 ≤ other.1) × IfSome found (λ found. result.1 ≤ found.1) }
{
    match found {
        Some(found) if found.1 <= other.1 => found,
        Some(_) | None => other,
    }
}

//! One connection, and what is done in its turn.
ghost use Rattle.std.specs.IoError.{error_kind};
ghost use Rattle.std.specs.Prelude.{◌≡◌, ◌↔◌, ◌⊎◌, ◌<◌, [], IsTrue, false, length, true};
ghost use Rattle.http_server.specs.Connection.{config_of, history};
ghost use Rattle.http_server.specs.Exchange.{Calls};
ghost use Rattle.http_server.specs.History.{IsDone, Rests, WantsRead};
ghost use Rattle.vdcp_panel.specs.Lasting.{Stays, both, due_of, is_busy, is_gone, stay_at, stay_of_kind};
ghost use Rattle.vdcp_panel.specs.Seen.{AnswersAtDesk};
ghost use Rattle.vdcp_panel.specs.Turned.{HasTurned, calls_at};

use crate::desk::Desk;
use crate::view::View;
use http_server::{Connection, Service};
use std::io::{self, ErrorKind, Read, Write};

// How long after its last answer a connection is closed, in milliseconds.
const PATIENCE: u64 = 10_000;

#[derive(Drop)]
pub struct Peer<T: Read + Write> {
    pub connection: Connection,
    /// Whether a request that came by it had the token.
    pub is_known: bool,
    stream: T,
    // Whether all that came was answered, and the answers went out.
    is_rested: bool,
    stay: Stay,
    // Whether a read or a write of the last turn would have waited: only then the next change is reported.
    is_blocked: bool,
    // In milliseconds: when the last answer was made, and when bytes moved last.
    answered: u64,
    active: u64,
}

#[derive(Clone, Copy, PartialEq, Eq)]
enum Stay {
    Active,
    Waiting,
    Gone,
}

impl<T: Read + Write> Peer<T> {
    pub fn new(stream: T, connection: Connection, now: u64) -> Self
        ensures connection { result.connection ≡ connection }
        ensures unknown { result.is_known ≡ false }
        ensures fresh { (result.is_rested ≡ true) × (result.is_blocked ≡ false) × (result.stay ≡ Stay.Active) }
        ensures times { (result.answered ≡ now) × (result.active ≡ now) }
    {
        Peer {
            connection,
            is_known: false,
            stream,
            is_rested: true,
            stay: Stay::Active,
            is_blocked: false,
            answered: now,
            active: now,
        }
    }

    /// When bytes moved last, in milliseconds.
    pub fn active(&self) -> u64
        ensures { result ≡ self.now.active }
    {
        self.active
    }

    /// When it is given up, in milliseconds, unless an answer is made before.
    pub fn due(&self) -> u64
        ensures { result ≡ due_of self.now }
    {
        self.answered.saturating_add(PATIENCE)
    }

    /// Whether there may be more to do at once.
    pub fn is_busy(&self) -> bool
        ensures { result ≡ is_busy self.now }
    {
        !self.is_blocked && !self.is_gone()
    }

    pub fn is_gone(&self) -> bool
        ensures { result ≡ is_gone self.now }
    {
        self.stay == Stay::Gone
    }

    /// Does what can be done now: a write, a read, an answer and a write.
    pub fn turn<V: View>(&mut self, desk: &mut Desk<'_, V>, now: u64)
        ensures turned { HasTurned (AnswersAtDesk V.page_bytes V.state_bytes V.about) desk.old self.old self.new desk.new }
        ensures stays { Stays now self.old self.new }
    {
        desk.is_known = self.is_known;
        let stay = self.step(desk, now);
        self.is_known = desk.is_known;
        if let Stay::Active = stay {
            self.active = now;
        }
        self.stay = stay_at(now, self.due(), stay);
    }

    // It reads only if every request that came was answered.
    fn step<S: Service>(&mut self, service: &mut S, now: u64) -> Stay
        ensures calls { Calls S.answers service.old service.new (calls_at self.old) (calls_at self.new) }
        ensures active { self.new.active ≡ self.old.active }
        ensures done { IsDone (history self.new.connection) → result ≡ Stay.Gone }
    {
        self.is_blocked = false;
        let wrote = self.write();
        let read = self.read();
        self.answer(service, read == Stay::Active, now);
        let wrote = wrote.and(self.write());
        if self.connection.is_done() {
            return Stay::Gone;
        }
        read.and(wrote)
    }

    #[tactic(auto, using(crate::proofs::Gained::no_calls))]
    fn answer<S: Service>(&mut self, service: &mut S, has_come: bool, now: u64)
        ensures calls { Calls S.answers service.old service.new (calls_at self.old) (calls_at self.new) }
        ensures active { self.new.active ≡ self.old.active }
        ensures advanced { (self.old.is_rested ≡ false) ⊎ (has_come ≡ true) →
            Rests (config_of self.new.connection) (history self.new.connection)
            × (IsTrue self.new.is_rested ↔ (length (history self.new.connection).pending ≡ 0)) }
        ensures answered { length (history self.old.connection).pending ≡ 0 →
            0 < length (history self.new.connection).pending → self.new.answered ≡ now }
    {
        if self.is_rested && !has_come {
            return;
        }
        let was_pending = self.connection.wants_write();
        self.connection.advance(service);
        self.is_rested = !self.connection.wants_write();
        if !was_pending && !self.is_rested {
            self.answered = now;
        }
    }

    fn write(&mut self) -> Stay
        ensures calls { calls_at self.new ≡ calls_at self.old }
        ensures active { self.new.active ≡ self.old.active }
        ensures waits { 0 < length (history self.old.connection).pending → result ≡ Stay.Waiting → self.new.is_blocked ≡ true }
    {
        if !self.connection.wants_write() {
            return Stay::Waiting;
        }
        match self.connection.write_to(&mut self.stream) {
            Ok(0) => Stay::Gone,
            Ok(_) => Stay::Active,
            Err(error) => self.wait(&error),
        }
    }

    fn read(&mut self) -> Stay
        ensures calls { calls_at self.new ≡ calls_at self.old }
        ensures active { self.new.active ≡ self.old.active }
        ensures waits { self.old.is_rested ≡ true → WantsRead (config_of self.old.connection) (history self.old.connection) →
            result ≡ Stay.Waiting → self.new.is_blocked ≡ true }
    {
        if !self.is_rested || !self.connection.wants_read() {
            return Stay::Waiting;
        }
        match self.connection.read_from(&mut self.stream) {
            Ok(_) => Stay::Active,
            Err(error) => self.wait(&error),
        }
    }

    fn wait(&mut self, error: &io::Error) -> Stay
        ensures stay { result ≡ stay_of_kind (error_kind error.now) }
        ensures blocked { result ≡ Stay.Waiting → self.new.is_blocked ≡ true }
        ensures rest { self.new ≡ record self.old { is_blocked = self.new.is_blocked } }
    {
        let stay = stay_of_kind(error.kind());
        self.is_blocked = stay == Stay::Waiting;
        stay
    }
}

// An interrupted one is made again in the next turn.
fn stay_of_kind(kind: ErrorKind) -> Stay
    ensures { result ≡ stay_of_kind kind }
{
    match kind {
        ErrorKind::WouldBlock => Stay::Waiting,
        ErrorKind::Interrupted => Stay::Active,
        _ => Stay::Gone,
    }
}

fn stay_at(now: u64, due: u64, stay: Stay) -> Stay
    ensures { result ≡ stay_at now due stay }
{
    if due <= now { Stay::Gone } else { stay }
}

impl Stay {
    fn and(self, other: Stay) -> Stay
        ensures { result ≡ both self other }
    {
        match (self, other) {
            (Stay::Gone, _) | (_, Stay::Gone) => Stay::Gone,
            (Stay::Active, _) | (_, Stay::Active) => Stay::Active,
            (Stay::Waiting, Stay::Waiting) => Stay::Waiting,
        }
    }
}

//! The server's end: it listens, and answers what comes, and frames pass at its port.
ghost use Rattle.std.specs.Option.{option_to_list};
ghost use Rattle.std.specs.Prelude.{◌≡◌, ◌≢◌, ◌≤◌, Bool, [], List, ℕ, IfOk, IfSome, OnOk, OnErr, IsErr, None, true};
ghost use Rattle.vdcp_frame.specs.Message.{content_of, AreOctets};
ghost use Rattle.vdcp_frame.specs.Progress.{reading};
ghost use Rattle.vdcp_port.specs.Answers.{answer_bytes, bytes_for, items_for};
ghost use Rattle.vdcp_port.specs.Clock.{after_frame, after_message, answer_to};
ghost use Rattle.vdcp_words.specs.Replies.{IsWritableReply};
ghost use Rattle.vdcp_drive.specs.ServeLeaves.{HasBroken, HasTaken, HasTurned, ServeLeaves, due_by, listened};
ghost use Rattle.vdcp_drive.specs.ServerEars.{ServerEar, HasRead, rests, says};
ghost use Rattle.vdcp_drive.specs.Serving.{asked, last_aired, sending};
ghost use Rattle.vdcp_drive.specs.Steps.{Chain};
ghost use Rattle.vdcp_wire.specs.Acts.{OfFront, sends};

use crate::hearing::Hearing;
use crate::laws;
use crate::line::{DriveFault, TurnsEnd};
use crate::server_hooks::{Due, ServerHooks, Turned};
use std::marker::Model;
use vdcp_frame::{Got, Message, Reader, laws as bursts};
use vdcp_port::{Catalogue, Port, laws as answers, reply_at_end};
use vdcp_value::Item;
use vdcp_wire::{Came, PIECE, Wire, WireFault};
use vdcp_words::Reply;

/// The server's end of one playout channel. It answers each message as soon as that is read.
#[derive(Drop)]
pub struct Server<C: Catalogue, W: Wire> {
    listener: Listener<C>,
    wire: W,
    failed: bool,
}

#[derive(Drop)]
struct Listener<C: Catalogue> {
    port: Port<C>,
    hearing: Hearing,
    reader: Reader,
    aired: Option<Item>,
}

impl<C: Catalogue, W: Wire> Model for Server<C, W> {
    ghost use Rattle.std.specs.Prelude.{◌≡◌, if◌then◌else◌};
    ghost use Rattle.vdcp_drive.specs.Serving.{Serving};

    ghost Value = { Serving W };

    ghost view = { λ s. record {
      port = s.listener.port;
      wire = s.wire;
      hearing = s.listener.hearing;
      reader = s.listener.reader;
      aired = s.listener.aired;
    } };

    ghost invariant = { λ s. W.failures s.wire ≡ (if s.failed then 1 else 0) };
}

impl<C: Catalogue, W: Wire> Server<C, W> {
    /// Makes a server that hears at silences.
    pub fn new(port: Port<C>, wire: W) -> Self
        requires { W.failures wire ≡ 0 }
        ensures port { result.port ≡ port }
        ensures wire { result.wire ≡ wire }
        ensures hearing { result.hearing ≡ Hearing.AtSilences }
        ensures reader { result.reader ≡ reading 0 [] }
        ensures aired { result.aired ≡ None }
    {
        Server::with_hearing(port, Hearing::AtSilences, wire)
    }

    pub fn with_hearing(port: Port<C>, hearing: Hearing, wire: W) -> Self
        requires { W.failures wire ≡ 0 }
        ensures port { result.port ≡ port }
        ensures wire { result.wire ≡ wire }
        ensures hearing { result.hearing ≡ hearing }
        ensures reader { result.reader ≡ reading 0 [] }
        ensures aired { result.aired ≡ None }
    {
        Server {
            listener: Listener {
                port,
                hearing,
                reader: Reader::new(),
                aired: None,
            },
            wire,
            failed: false,
        }
    }

    pub fn wire(&self) -> &W
        ensures { result.now ≡ self.now.wire }
    {
        &self.wire
    }

    pub fn port(&self) -> &Port<C>
        ensures { result.now ≡ self.now.port }
    {
        &self.listener.port
    }

    /// The port is as the turns have left it.
    pub fn into_parts(self) -> (Port<C>, W)
        ensures port { result.0 ≡ self.port }
        ensures wire { result.1 ≡ self.wire }
    {
        (self.listener.port, self.wire)
    }

    /// The item that the last turn put to air.
    pub fn aired(&self) -> Option<Item>
        ensures { result ≡ self.now.aired }
    {
        self.listener.aired
    }

    /// Takes this many turns, or fewer if the other end closes or the hooks give the line up. The hooks say what is due
    /// at each turn, and are lent the port after it.
    pub fn serve<H: ServerHooks<C>>(
        &mut self,
        turns: u64,
        hooks: &mut H,
    ) -> Result<TurnsEnd, DriveFault>
        ensures leaves { ServeLeaves W.does H.can_act (λ steps. Chain H.does steps hooks.old hooks.new) W.failures turns
            self.old self.new result }
    {
        if self.failed {
            return Err(DriveFault::Device);
        }
        let mut made = 0;
        'turns: while made < turns {
            let Some(turned) = self.turn_due(hooks) else {
                return Ok(TurnsEnd::GivenUp);
            };
            hooks.look(&self.listener.port, self.listener.aired, turned);
            if turned?.closes() {
                return Ok(TurnsEnd::Closed);
            }
            made += 1;
        }
        Ok(TurnsEnd::Spent)
    }

    fn turn_due<H: ServerHooks<C>>(&mut self, hooks: &mut H) -> Option<Result<Turned, DriveFault>>
        requires { W.failures self.old.wire ≡ 0 }
        ensures serves { (ear : ServerEar) → HasRead self.old.hearing ear self.old.reader →
            IfSome result (λ turned. HasTurned W.does H.can_act self.old.hearing (record { port = self.old.port; ear = ear })
            self.old.wire turned self.new.port self.new.reader self.new.aired self.new.wire) }
        ensures asks { H.does (asked (due_by result)) hooks.old hooks.new }
        ensures gives_up { result ≡ None → (self.new ≡ self.old) × (H.can_act ≡ true) }
        ensures hears { self.new.hearing ≡ self.old.hearing }
        ensures works { IfSome result (λ turned. OnOk turned (W.failures self.new.wire ≡ 0)) }
        ensures device { IfSome result (λ turned. OnErr turned (W.failures self.new.wire ≡ 1)) }
    {
        match hooks.due() {
            Due::Listen => Some(match self.turn() {
                Ok(came) => Ok(Turned::Listen(came)),
                Err(fault) => Err(fault),
            }),
            Due::Frame => {
                self.pass_frame();
                Some(Ok(Turned::Frame))
            }
            Due::GiveUp => None,
        }
    }

    /// A frame passes at the port; the reader isn't told.
    pub fn pass_frame(&mut self)
        ensures { self.new ≡ record self.old { port = after_frame self.old.port; aired = None } }
    {
        self.listener.aired = None;
        self.listener.port.frame();
    }

    /// Listens once on the wire, and answers what came.
    pub fn turn(&mut self) -> Result<Came, DriveFault>
        ensures serves { W.failures self.old.wire ≡ 0 → (can : Bool) (ear : ServerEar) →
            HasRead self.old.hearing ear self.old.reader →
            HasTurned W.does can self.old.hearing (record { port = self.old.port; ear = ear }) self.old.wire
            (listened result) self.new.port self.new.reader self.new.aired self.new.wire }
        ensures hears { self.new.hearing ≡ self.old.hearing }
        ensures works { OnOk result (W.failures self.new.wire ≡ 0) }
        ensures device { OnErr result (W.failures self.new.wire ≡ 1) }
        ensures stays { W.failures self.old.wire ≡ 1 → IsErr result × (self.new ≡ self.old) }
    {
        if self.failed {
            return Err(DriveFault::Device);
        }
        match self.listener.hear(&mut self.wire) {
            Ok(came) => Ok(came),
            Err(WireFault) => {
                self.failed = true;
                Err(DriveFault::Device)
            }
        }
    }
}

impl<C: Catalogue> Listener<C> {
    fn hear<W: Wire>(&mut self, wire: &mut W) -> Result<Came, WireFault>
        requires { W.failures wire.old ≡ 0 }
        ensures serves { (can : Bool) (ear : ServerEar) → HasRead self.old.hearing ear self.old.reader →
            HasTurned W.does can self.old.hearing (record { port = self.old.port; ear = ear }) wire.old (listened result)
            self.new.port self.new.reader self.new.aired wire.new }
        ensures hears { self.new.hearing ≡ self.old.hearing }
        ensures works { OnOk result (W.failures wire.new ≡ 0) }
        ensures failed { OnErr result (W.failures wire.new ≡ 1) }
    {
        self.aired = None;
        let mut buffer = [0; PIECE];
        let came = wire.listen(&mut buffer)?;
        match came {
            Came::Bytes(n) => self.take_piece(wire, &buffer[..n])?,
            Came::Silence => {
                let reply = rest(self.hearing, &mut self.reader);
                end_burst(self.hearing, reply, &mut self.port, wire)?;
            }
            Came::Closed => {}
        }
        Ok(came)
    }

    fn take_piece<W: Wire>(&mut self, wire: &mut W, piece: &[u8]) -> Result<(), WireFault>
        requires { W.failures wire.old ≡ 0 }
        ensures taken { (ear : ServerEar) → HasRead self.old.hearing ear self.old.reader → OnOk result (HasTaken W.does
            self.old.hearing (record { port = self.old.port; ear = ear }) self.old.aired wire.old piece.now self.new.port
            self.new.reader self.new.aired wire.new) }
        ensures broken { (ear : ServerEar) → HasRead self.old.hearing ear self.old.reader → OnErr result (HasBroken W.does
            (record { port = self.old.port; ear = ear }) self.old.aired wire.old piece.now self.new.port self.new.aired
            wire.new) }
        ensures hears { self.new.hearing ≡ self.old.hearing }
        ensures fits { AreOctets piece.now }
        ensures works { OnOk result (W.failures wire.new ≡ 0) }
        ensures failed { OnErr result (W.failures wire.new ≡ 1) }
    {
        laws::laws_below();
        answers::one_alone();
        let mut rest = piece;
        'piece: loop {
            match self.reader.next(&mut rest) {
                Got::Message(message) => {
                    answer(&mut self.port, &mut self.aired, wire, &message)?;
                    if let Hearing::AtOnce = self.hearing {
                        self.reader.silence();
                    }
                }
                Got::Fault(_, _) => {}
                Got::More => return Ok(()),
            }
        }
    }
}

fn answer<C: Catalogue, W: Wire>(
    port: &mut Port<C>,
    aired: &mut Option<Item>,
    wire: &mut W,
    message: &Message,
) -> Result<(), WireFault>
    requires { W.failures wire.old ≡ 0 }
    ensures sent { OnOk result (Chain W.does (sending port.old.state.unit
        (option_to_list (answer_to port.old (content_of message.now)))) wire.old wire.new) }
    ensures front { OnErr result (OfFront (bytes_for port.old (content_of message.now)) (λ front.
        W.does (sends front) wire.old wire.new)) }
    ensures next { port.new ≡ after_message port.old (content_of message.now) }
    ensures airs { aired.new ≡ last_aired aired.old (items_for port.old (content_of message.now)) }
    ensures works { OnOk result (W.failures wire.new ≡ 0) }
    ensures failed { OnErr result (W.failures wire.new ≡ 1) }
{
    let unit = port.unit();
    let (reply, item) = port.answer(message);
    if item.is_some() {
        *aired = item;
    }
    match reply {
        Some(reply) => wire.send(reply.encode(unit).as_slice()),
        None => Ok(()),
    }
}

// A silence ends a burst; in a stream it is answered only after a fault.
fn rest(hearing: Hearing, reader: &mut Reader) -> Option<Reply>
    ensures says { (ear : ServerEar) → HasRead hearing ear reader.old → option_to_list result ≡ says ear }
    ensures rests { (ear : ServerEar) → HasRead hearing ear reader.old → HasRead hearing (rests ear) reader.new }
    ensures readable { IfSome result IsWritableReply }
{
    laws::laws_below();
    answers::one_answer_to_the_end();
    if let Hearing::AtOnce = hearing
        && !reader.has_failed()
    {
        return None;
    }
    reply_at_end(reader.silence())
}

fn end_burst<C: Catalogue, W: Wire>(
    hearing: Hearing,
    reply: Option<Reply>,
    port: &mut Port<C>,
    wire: &mut W,
) -> Result<(), WireFault>
    requires wire { W.failures wire.old ≡ 0 }
    requires readable { IfSome reply IsWritableReply }
    ensures sent { OnOk result (Chain W.does (sending port.old.state.unit (option_to_list reply)) wire.old wire.new) }
    ensures front { OnErr result (OfFront (answer_bytes port.old.state.unit (option_to_list reply)) (λ front.
        W.does (sends front) wire.old wire.new)) }
    ensures bursts { OnOk result (hearing ≡ Hearing.AtSilences → port.new ≡ after_frame port.old) }
    ensures streams { OnOk result (hearing ≡ Hearing.AtOnce → port.new ≡ port.old) }
    ensures unended { OnErr result (port.new ≡ port.old) }
    ensures works { OnOk result (W.failures wire.new ≡ 0) }
    ensures failed { OnErr result (W.failures wire.new ≡ 1) }
{
    if let Some(reply) = reply {
        wire.send(reply.encode(port.unit()).as_slice())?;
    }
    if let Hearing::AtSilences = hearing {
        port.frame();
    }
    Ok(())
}

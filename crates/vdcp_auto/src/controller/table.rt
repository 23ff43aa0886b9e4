//! The phase table: what each phase sends, and where the end of its exchange leads.
ghost use Rattle.std.specs.Prelude.{◌≡◌, ◌<◌, Some, length};
ghost use Rattle.vdcp_auto.specs.Bounds.{IsPhaseIn, IsTransitionIn};
ghost use Rattle.vdcp_auto.specs.Plan.{plan_of};
ghost use Rattle.vdcp_auto.specs.State.{Awaiting};
ghost use Rattle.vdcp_auto.specs.Table as table;
ghost use Rattle.vdcp_auto.specs.Turn as turns;

use crate::controller::Controller;
use crate::exchange::Exchange;
use crate::meaning;
use crate::outcome::Outcome;
use crate::phase::{Mode, Phase, Position, Transition};
use crate::source::Source;
use vdcp_words::{Command, Reply};

const LOCK: u8 = 0x01;
/// The bitmap of PORT STATUS REQUEST that asks for the state byte.
const STATE: u8 = 0x01;

impl<S: Source> Controller<S> {
    pub(super) fn command_in(&self, phase: Phase) -> Command
        requires { IsPhaseIn S.items self.now phase }
        ensures { table.command_in (S.items self.now.source) self.now.port phase ≡ Some result }
    {
        match phase {
            Phase::Open => Command::Open(self.port, LOCK),
            Phase::Select => Command::Select(self.port),
            Phase::Seen => Command::Status(STATE),
            Phase::Exists(k) => Command::IdRequest(self.source.at(k).id),
            Phase::Cue(k) => meaning::cue_of(&self.source.at(k)),
            Phase::Wait(_) => Command::Status(STATE),
            Phase::Play(_) => Command::Play,
            Phase::Probe(_) => Command::Status(STATE),
            Phase::Check(_) => Command::ActiveId,
            Phase::Drain => Command::Status(STATE),
            Phase::Close => Command::Close(self.port),
            Phase::Halt => Command::Stop,
            Phase::HaltClose => Command::Close(self.port),
        }
    }

    pub(super) fn end(&mut self, phase: Phase, exchange: &Exchange)
        requires { self.old.state.stage ≡ Awaiting phase }
        ensures { self.new ≡ record self.old {
          state = turns.ended_in (plan_of S.items self.old) (Awaiting phase) exchange.now self.old.state;
        } }
    {
        let answer = meaning::answer_in(exchange);
        let counts = meaning::is_counted(self.mode, exchange);
        let transition = self.transition_on(phase, counts, answer);
        if counts {
            self.unanswered = match answer {
                Some(_) => 0,
                None => self.unanswered + 1,
            };
        }
        match transition {
            Transition::Goes(next) => {
                if let Phase::Exists(_) = next {
                    self.tries = 0;
                }
                self.position = Position::Ready(next);
            }
            Transition::Settles(k) => {
                self.settled = k + 1;
                self.position = Position::Ready(Phase::Check(k));
            }
            Transition::Retries(k) => {
                self.tries += 1;
                self.position = Position::Ready(Phase::Cue(k));
            }
            Transition::Ends(outcome) => self.position = Position::Ended(outcome),
        }
    }

    /// The limit of unanswered exchanges in a row goes before what the phase does.
    fn transition_on(&self, phase: Phase, counts: bool, answer: Option<Reply>) -> Transition
        requires within { IsPhaseIn S.items self.now phase }
        requires few { self.now.state.unanswered < 1000 }
        ensures transition { result ≡ turns.transition_on (plan_of S.items self.now) self.now.state.take
            self.now.state.tries self.now.state.unanswered counts phase answer }
        ensures within { IsTransitionIn S.items self.now result }
    {
        match answer {
            Some(reply) if meaning::is_refusal(&reply) => self.on_refusal(phase),
            Some(reply) => self.on_reply(phase, &reply),
            None if counts && self.unanswered + 1 >= self.limit => Transition::Ends(Outcome::Lost),
            None => self.on_no_answer(phase),
        }
    }

    fn on_reply(&self, phase: Phase, reply: &Reply) -> Transition
        requires { IsPhaseIn S.items self.now phase }
        ensures transition { result ≡ table.on_reply self.now.mode (S.items self.now.source)
            self.now.limit self.now.state.take self.now.state.tries phase reply.now }
        ensures within { IsTransitionIn S.items self.now result }
    {
        match phase {
            Phase::Open if meaning::is_granted(reply) => Transition::Goes(Phase::Select),
            Phase::Open => Transition::Ends(Outcome::Denied),
            Phase::Select => Transition::Goes(self.next(0)),
            Phase::Seen => Transition::Goes(self.next(0)),
            Phase::Exists(k) if meaning::is_present(reply) => Transition::Goes(Phase::Cue(k)),
            Phase::Exists(k) => Transition::Ends(Outcome::Missing(k)),
            Phase::Cue(k) => Transition::Goes(Phase::Wait(k)),
            Phase::Wait(k) => self.on_state_in_wait(k, reply),
            Phase::Play(k) => Transition::Settles(k),
            Phase::Probe(k) if meaning::is_done(reply) => Transition::Goes(Phase::Play(k)),
            Phase::Probe(k) if meaning::is_empty(reply) => Transition::Settles(k),
            Phase::Probe(k) => Transition::Goes(Phase::Probe(k)),
            Phase::Check(k) if meaning::names_other(&self.source.at(k), reply) => {
                Transition::Ends(Outcome::Foreign(k))
            }
            Phase::Check(k) => Transition::Goes(self.next(k + 1)),
            Phase::Drain => self.on_state_in_drain(reply),
            Phase::Close => Transition::Ends(Outcome::Done),
            Phase::Halt => Transition::Goes(Phase::HaltClose),
            Phase::HaltClose => Transition::Ends(Outcome::Stopped),
        }
    }

    fn on_refusal(&self, phase: Phase) -> Transition
        requires { IsPhaseIn S.items self.now phase }
        ensures transition { result ≡ table.on_refusal (length (S.items self.now.source)) phase }
        ensures within { IsTransitionIn S.items self.now result }
    {
        match phase {
            Phase::Open | Phase::Select | Phase::Seen => Transition::Ends(Outcome::Denied),
            Phase::Exists(k)
            | Phase::Cue(k)
            | Phase::Wait(k)
            | Phase::Play(k)
            | Phase::Probe(k)
            | Phase::Check(k) => Transition::Ends(Outcome::Refused(k)),
            Phase::Drain => Transition::Ends(Outcome::Refused(self.source.len())),
            Phase::Close => Transition::Ends(Outcome::Done),
            Phase::Halt => Transition::Goes(Phase::HaltClose),
            Phase::HaltClose => Transition::Ends(Outcome::Stopped),
        }
    }

    fn on_no_answer(&self, phase: Phase) -> Transition
        requires { IsPhaseIn S.items self.now phase }
        ensures transition { result ≡ table.on_no_answer self.now.mode phase }
        ensures within { IsTransitionIn S.items self.now result }
    {
        match self.mode {
            Mode::Plain => on_no_answer_in_plain(phase),
            Mode::Confirming => on_no_answer_in_confirming(phase),
        }
    }

    fn on_state_in_wait(&self, k: usize, reply: &Reply) -> Transition
        requires { k < length (S.items self.now.source) }
        ensures transition { result ≡ table.on_reply self.now.mode (S.items self.now.source)
            self.now.limit self.now.state.take self.now.state.tries (Phase.Wait k) reply.now }
        ensures within { IsTransitionIn S.items self.now result }
    {
        if meaning::is_done(reply) && (!meaning::is_playing(reply) || self.take) {
            Transition::Goes(Phase::Play(k))
        } else if meaning::is_empty(reply) {
            self.on_lost_cue(k)
        } else {
            Transition::Goes(Phase::Wait(k))
        }
    }

    fn on_lost_cue(&self, k: usize) -> Transition
        requires { k < length (S.items self.now.source) }
        ensures transition { result
            ≡ table.on_lost_cue self.now.mode self.now.limit self.now.state.tries k }
        ensures within { IsTransitionIn S.items self.now result }
    {
        match self.mode {
            Mode::Plain => Transition::Ends(Outcome::Strange(k)),
            Mode::Confirming if self.tries + 1 < self.limit => Transition::Retries(k),
            Mode::Confirming => Transition::Ends(Outcome::Refused(k)),
        }
    }

    fn on_state_in_drain(&self, reply: &Reply) -> Transition
        ensures transition { result ≡ table.on_reply self.now.mode (S.items self.now.source)
            self.now.limit self.now.state.take self.now.state.tries Phase.Drain reply.now }
        ensures within { IsTransitionIn S.items self.now result }
    {
        if meaning::is_cueing(reply) || meaning::is_done(reply) {
            Transition::Ends(Outcome::Strange(self.source.len()))
        } else if meaning::is_playing(reply) {
            Transition::Goes(Phase::Drain)
        } else {
            Transition::Goes(Phase::Close)
        }
    }

    fn next(&self, k: usize) -> Phase
        ensures next { result ≡ table.next (S.items self.now.source) k }
        ensures within { IsPhaseIn S.items self.now result }
    {
        if k < self.source.len() {
            Phase::Exists(k)
        } else {
            Phase::Drain
        }
    }
}

fn on_no_answer_in_plain(phase: Phase) -> Transition
    ensures { result ≡ table.on_no_answer Mode.Plain phase }
{
    match phase {
        Phase::Play(sent) => Transition::Goes(Phase::Probe(sent)),
        Phase::Open
        | Phase::Select
        | Phase::Seen
        | Phase::Exists(_)
        | Phase::Cue(_)
        | Phase::Wait(_)
        | Phase::Probe(_)
        | Phase::Check(_)
        | Phase::Drain
        | Phase::Close
        | Phase::Halt
        | Phase::HaltClose => Transition::Goes(phase),
    }
}

/// A command that only a receipt answers ends by its time-out.
fn on_no_answer_in_confirming(phase: Phase) -> Transition
    ensures { result ≡ table.on_no_answer Mode.Confirming phase }
{
    match phase {
        Phase::Select => Transition::Goes(Phase::Seen),
        Phase::Seen => Transition::Goes(Phase::Select),
        Phase::Cue(k) => Transition::Goes(Phase::Wait(k)),
        Phase::Play(k) => Transition::Goes(Phase::Probe(k)),
        Phase::Close => Transition::Ends(Outcome::Done),
        Phase::Halt => Transition::Goes(Phase::HaltClose),
        Phase::HaltClose => Transition::Ends(Outcome::Stopped),
        Phase::Open
        | Phase::Exists(_)
        | Phase::Wait(_)
        | Phase::Probe(_)
        | Phase::Check(_)
        | Phase::Drain => Transition::Goes(phase),
    }
}

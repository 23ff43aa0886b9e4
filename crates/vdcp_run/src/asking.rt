//! What is asked before a list's own commands: is the port empty, has the clip before ended, and what does a port do whose PLAY
//! is held?
ghost use Rattle.std.specs.Option.{option_map};
ghost use Rattle.std.specs.Prelude.{◌≡◌, ◌≢◌, ◌≤◌, Bool, Err, Some};
ghost use Rattle.vdcp_auto.specs.Plan.{View, plan_of};
ghost use Rattle.vdcp_auto.specs.Turn as turns;
ghost use Rattle.vdcp_list.specs.Rests.{FromEvent, items_left};
ghost use Rattle.vdcp_operator.specs.Hands.{Asks as AsksHand, ends_by, holds_back};
ghost use Rattle.vdcp_run.specs.declared.asking.Purpose.{Purpose};
ghost use Rattle.vdcp_run.specs.Asking.{Comes, HasAsked, asker_of, asking, is_answered, is_called_off, is_opening, is_question, left_line, line_of, may_ask, over, ran_line, refused_line, signs_asked, start_of, waiting_line};

use crate::console::Console;
use crate::run_end::{LineEnd, Signs, Why};
use crate::settings::RunSettings;
use std::io;
use std::rt::{Clock, Files};
use vdcp_auto::{Controller, Heard, Mode, Outcome, Phase, Snapshot, Source, Standing};
use vdcp_drive::{BrokenOff, Call, Driver, Ear, Hooks, KeepFault, Next, Ran};
use vdcp_list::Rest;
use vdcp_operator::{Ender, Said};
use vdcp_wire::Wire;
use vdcp_words::{Command, Reply};

#[derive(Clone, Copy, PartialEq, Eq)]
pub enum Purpose {
    /// Whether something is cued or plays there. The operator's stop ends the asking.
    Vacancy,
    /// In confirm mode, whether the server still has the port open. A take or stop ends the asking.
    Port,
    /// When the clip before ends. A take or stop ends the asking.
    ClipEnd,
    /// What the port does while the operator holds back what is cued. Each call ends the asking.
    Hold,
}

/// What is left once the port was asked.
#[derive(Drop)]
pub struct Asked<E, W, C> {
    /// How the line ends, if the list isn't begun.
    pub line: Option<LineEnd>,
    /// It may have heard a part of a message.
    pub ear: E,
    pub wire: W,
    pub console: C,
    /// How many turns may still be made.
    pub left: u32,
    /// The signs of before, and whether a question had no answer.
    pub signs: Signs,
}

/// The hooks of an automation that asks: only questions go out, and none once they are answered or called off.
#[derive(Drop)]
struct Inquiry<'c, 'r, 'l, S: Source, R: Clock, I: io::Read, O: io::Write, V: io::Write> {
    purpose: Purpose,
    // That of the run, which the operator is shown.
    controller: &'c Controller<Rest<S>>,
    console: Console<'r, 'l, R, I, O, V>,
    // The state byte that was heard last.
    state: Option<u8>,
    left: u32,
    signs: Signs,
}

#[derive(Drop)]
struct Answer<E, W> {
    ran: Result<Ran, BrokenOff>,
    outcome: Option<Outcome>,
    ear: E,
    wire: W,
}

impl<
    'r,
    'l,
    R: Files + Clock + AllocGlobal,
    I: io::Read + Drop,
    O: io::Write + Drop,
    V: io::Write + Drop,
> Console<'r, 'l, R, I, O, V> {
    /// If OPEN is next and the settings want it, asks whether the port is empty; before a PLAY that may have been lost is
    /// sent again, asks when the clip before ends; while the operator holds back what is cued, asks for the state; and in confirm
    /// mode, where that is asked next, whether the port is open, since an automation that asks hears that it isn't. Only OPEN,
    /// SELECT and STATUS go out; the operator's calls wait.
    pub fn ask_first<S: Source + Copy, E: Ear + Drop, W: Wire + Drop>(
        self,
        controller: &Controller<Rest<S>>,
        ear: E,
        wire: W,
        signs: Signs,
        settings: RunSettings<'_>,
    ) -> Asked<E, W, Self>
        requires unit { settings.unit ≤ 15 }
        requires works { W.failures wire ≡ 0 }
        ensures asks { HasAsked (asker_of settings.entry.ask (holds_back self.entry.hand.list.holds controller.now.state)
            (start_of S.items controller.now)) W.does E.fold settings.entry ear result.ear wire result.wire result.left
            signs result.signs result.line }
        ensures works { result.line ≢ Some LineEnd.Failed → W.failures result.wire ≡ 0 }
        ensures list { result.console.hand.list ≡ self.entry.hand.list }
    {
        let holds = self.hand.holds_back(controller);
        let Some((purpose, asker)) = asker_of(controller, settings.ask, holds) else {
            return Asked {
                line: None,
                ear,
                wire,
                console: self,
                left: settings.listens,
                signs,
            };
        };
        let mut inquiry = Inquiry {
            purpose,
            controller,
            console: self,
            state: None,
            left: settings.listens,
            signs,
        };
        let answer = inquiry.ask(asker, ear, wire, settings);
        Asked {
            line: inquiry.line_of(answer.ran, answer.outcome),
            ear: answer.ear,
            wire: answer.wire,
            left: inquiry.left,
            signs: inquiry.signs_after(answer.ran),
            console: inquiry.console,
        }
    }
}

fn asker_of<S: Source + Copy>(
    controller: &Controller<Rest<S>>,
    ask: bool,
    holds: bool,
) -> Option<(Purpose, Controller<Rest<S>>)>
    ensures { option_map (λ (a : Purpose × View (FromEvent S)). record {
      purpose = a.0;
      plan = plan_of (items_left S.items) a.1;
      state = a.1.state;
    }) result ≡ asker_of ask holds (start_of S.items controller.now) }
{
    let snapshot = controller.snapshot();
    let rest = controller.source();
    let whole = *rest.whole();
    let waits = match (snapshot.standing, snapshot.mode) {
        (Standing::Ready(Phase::Probe(event)), _) => Some((Purpose::ClipEnd, event)),
        (Standing::Ready(Phase::Wait(event) | Phase::Play(event)), _) if holds => {
            Some((Purpose::Hold, event))
        }
        (Standing::Ready(Phase::Wait(event)), Mode::Confirming) => Some((Purpose::Port, event)),
        _ => None,
    };
    if let Some((purpose, event)) = waits {
        // (there NAK 01h ends an exchange)
        let waits = Snapshot {
            standing: Standing::Ready(Phase::Wait(event)),
            mode: Mode::Plain,
            ..snapshot
        };
        let asker = Controller::of_snapshot(Rest::new(whole, rest.from()), &waits);
        return Some((purpose, asker));
    }
    if !ask || !opens_next(controller) {
        return None;
    }
    let opens = Snapshot::new(snapshot.mode, snapshot.port, snapshot.limit);
    let asker = Controller::of_snapshot(Rest::new(whole, whole.len()), &opens);
    Some((Purpose::Vacancy, asker))
}

fn opens_next<S: Source>(controller: &Controller<S>) -> bool
    ensures { result ≡ is_opening (turns.given (plan_of S.items controller.now) controller.now.state) }
{
    matches!(controller.to_send(), Some(Command::Open(_, _)))
}

impl<
    'c,
    'r,
    'l,
    S: Source + Copy,
    R: Files + Clock + AllocGlobal,
    I: io::Read + Drop,
    O: io::Write + Drop,
    V: io::Write + Drop,
> Inquiry<'c, 'r, 'l, S, R, I, O, V> {
    fn ask<E: Ear + Drop, W: Wire + Drop>(
        &mut self,
        asker: Controller<Rest<S>>,
        ear: E,
        wire: W,
        settings: RunSettings<'_>,
    ) -> Answer<E, W>
        requires unit { settings.unit ≤ 15 }
        requires works { W.failures wire ≡ 0 }
        ensures comes { Comes (asking W.does (plan_of (items_left S.items) asker)) E.fold
            (plan_of (items_left S.items) asker) settings.entry.unit settings.entry.listens asker.state ear result.ear
            (over wire (record {
              purpose = self.old.purpose;
              waiting = self.old.console.hand.waiting.items;
              list = self.old.console.hand.list;
              state = self.old.state;
              left = self.old.left;
              signs = self.old.signs;
            })) (over result.wire (record {
              purpose = self.new.purpose;
              waiting = self.new.console.hand.waiting.items;
              list = self.new.console.hand.list;
              state = self.new.state;
              left = self.new.left;
              signs = self.new.signs;
            })) result.ran result.outcome }
        ensures works { result.ran ≢ Err BrokenOff.Device → W.failures result.wire ≡ 0 }
        ensures list { self.new.console.hand.list ≡ self.old.console.hand.list }
    {
        let driver = Driver::with_ear(asker, settings.unit, ear, wire);
        run_by(driver, settings.listens, self)
    }

    fn may_ask(&self, command: Option<Command>) -> bool
        ensures { result ≡ may_ask (record {
          purpose = self.now.purpose;
          waiting = self.now.console.hand.waiting.items;
          list = self.now.console.hand.list;
          state = self.now.state;
          left = self.now.left;
          signs = self.now.signs;
        }) command }
    {
        let Some(command) = command else {
            return true;
        };
        is_question(command) && !self.is_answered() && !self.is_called_off()
    }

    fn is_answered(&self) -> bool
        ensures { result ≡ is_answered self.now.purpose self.now.state }
    {
        match self.purpose {
            Purpose::Vacancy | Purpose::Port => self.state.is_some(),
            Purpose::ClipEnd | Purpose::Hold => false,
        }
    }

    fn is_called_off(&self) -> bool
        ensures { result ≡ is_called_off self.now.purpose self.now.console.hand.waiting.items }
    {
        let hand = &self.console.hand;
        match self.purpose {
            Purpose::Vacancy => hand.held() == Some(Said::Stop),
            // (a list call would send a PLAY again that the clip before would have to end for)
            Purpose::Port | Purpose::ClipEnd => hand.is_called(),
            Purpose::Hold => hand.held().is_some(),
        }
    }

    // Unless the port is to be empty, this waits until the state may be asked again.
    fn heed(&mut self, asker: &Controller<Rest<S>>)
        ensures purpose { self.new.purpose ≡ self.old.purpose }
        ensures state { self.new.state ≡ self.old.state }
        ensures left { self.new.left ≡ self.old.left }
        ensures signs { self.new.signs ≡ self.old.signs }
        ensures list { self.new.console.hand.list ≡ self.old.console.hand.list }
        ensures asks { self.old.purpose ≡ Purpose.Hold → AsksHand (ends_by Ender.Each) S.items I.remaining asker.now
            self.old.console.hand.list self.old.console.hand.waiting.items self.old.console.hand.page self.old.console.hand.typed
            self.new.console.hand.waiting.items self.new.console.hand.page self.new.console.hand.typed }
    {
        match self.purpose {
            Purpose::Vacancy => {
                self.console.hand.heed(self.controller);
            }
            Purpose::Port | Purpose::ClipEnd => self
                .console
                .hand
                .await_poll(self.controller, Ender::TakeOrStop),
            Purpose::Hold => self.console.hand.await_poll(asker, Ender::Each),
        }
    }

    fn line_of(&self, ran: Result<Ran, BrokenOff>, outcome: Option<Outcome>) -> Option<LineEnd>
        ensures { result ≡ line_of (record {
          purpose = self.now.purpose;
          waiting = self.now.console.hand.waiting.items;
          list = self.now.console.hand.list;
          state = self.now.state;
          left = self.now.left;
          signs = self.now.signs;
        }) ran outcome }
    {
        match (ran, self.purpose) {
            (Err(BrokenOff::Device | BrokenOff::Unkept), _) => Some(LineEnd::Failed),
            (Err(BrokenOff::Left), Purpose::Vacancy) => self.left_line(),
            (Ok(ran), Purpose::Vacancy) => ran_line(ran, outcome),
            (Ok(ran), Purpose::Port | Purpose::Hold) => waiting_line(ran, outcome),
            (Ok(Ran::Ended), Purpose::ClipEnd) => refused_line(outcome),
            (_, Purpose::Port | Purpose::ClipEnd | Purpose::Hold) => None,
        }
    }

    // One that neither was left nor has ended may await an answer.
    fn signs_after(&self, ran: Result<Ran, BrokenOff>) -> Signs
        ensures { result ≡ signs_asked ran self.now.signs }
    {
        let mut signs = self.signs;
        match ran {
            Err(BrokenOff::Left) | Ok(Ran::Ended) => {}
            Err(_) | Ok(_) => signs.note_silence(),
        }
        signs
    }

    fn left_line(&self) -> Option<LineEnd>
        ensures { result ≡ left_line (record {
          purpose = self.now.purpose;
          waiting = self.now.console.hand.waiting.items;
          list = self.now.console.hand.list;
          state = self.now.state;
          left = self.now.left;
          signs = self.now.signs;
        }) }
    {
        if self.is_called_off() {
            return Some(LineEnd::NotBegun(Why::Stopped));
        }
        match self.state {
            None => Some(LineEnd::NotBegun(Why::Unanswered)),
            Some(0x01) => None,
            Some(_) => Some(LineEnd::NotBegun(Why::Occupied)),
        }
    }
}

// (a port that is denied to the questions is denied to the list as well)
fn ran_line(ran: Ran, outcome: Option<Outcome>) -> Option<LineEnd>
    ensures { result ≡ ran_line ran outcome }
{
    match (ran, outcome) {
        (Ran::Closed | Ran::Spent, _) => Some(LineEnd::Ran(ran)),
        (Ran::Ended, Some(Outcome::Denied)) => None,
        (Ran::Ended, Some(Outcome::Strange(_))) => Some(LineEnd::NotBegun(Why::Occupied)),
        (Ran::Ended, _) => Some(LineEnd::NotBegun(Why::Unanswered)),
    }
}

fn waiting_line(ran: Ran, outcome: Option<Outcome>) -> Option<LineEnd>
    ensures { result ≡ waiting_line ran outcome }
{
    match (ran, outcome) {
        (Ran::Closed | Ran::Spent, _) => Some(LineEnd::Ran(ran)),
        (Ran::Ended, Some(Outcome::Lost)) => Some(LineEnd::NotBegun(Why::Unanswered)),
        (Ran::Ended, _) => refused_line(outcome),
    }
}

fn refused_line(outcome: Option<Outcome>) -> Option<LineEnd>
    ensures { result ≡ refused_line outcome }
{
    match outcome {
        Some(Outcome::Refused(_)) => Some(LineEnd::NotBegun(Why::Unopened)),
        _ => None,
    }
}

fn is_question(command: Command) -> bool
    ensures { result ≡ is_question command }
{
    matches!(
        command,
        Command::Open(_, _) | Command::Select(_) | Command::Status(_)
    )
}

fn run_by<S: Source + Drop, E: Ear + Drop, W: Wire + Drop, H: Hooks<S>>(
    mut driver: Driver<S, E, W>,
    turns: u32,
    hooks: &mut H,
) -> Answer<E, W>
    requires works { W.failures driver.wire ≡ 0 }
    ensures comes { Comes (record {
      does = W.does;
      asks = H.asks (plan_of S.items driver.controller);
      adds = H.adds;
      loses = H.loses;
    }) E.fold (plan_of S.items driver.controller) driver.unit turns driver.controller.state driver.ear result.ear
        (over driver.wire (H.journal hooks.old)) (over result.wire (H.journal hooks.new)) result.ran result.outcome }
    ensures works { result.ran ≢ Err BrokenOff.Device → W.failures result.wire ≡ 0 }
{
    let ran = driver.run_with(u64::from(turns), hooks);
    let outcome = driver.controller().outcome();
    let (_, ear, wire) = driver.into_parts();
    Answer {
        ran,
        outcome,
        ear,
        wire,
    }
}

impl<
    S: Source + Copy,
    R: Files + Clock + AllocGlobal,
    I: io::Read + Drop,
    O: io::Write + Drop,
    V: io::Write + Drop,
> Hooks<Rest<S>> for Inquiry<'_, '_, '_, S, R, I, O, V> {
    ghost use Rattle.vdcp_run.specs.Asking.{Adds, Asks, Inquiring};

    ghost Journal = { Inquiring };

    ghost journal = { λ i. record {
      purpose = i.purpose;
      waiting = i.console.hand.waiting.items;
      list = i.console.hand.list;
      state = i.state;
      left = i.left;
      signs = i.signs;
    } };

    ghost asks = { Asks };

    ghost adds = { Adds };

    ghost loses = { λ _ _ _. ⊥ };

    fn due(&mut self, controller: &Controller<Rest<S>>) -> Next {
        self.left = self.left.saturating_sub(1);
        let command = controller.to_send();
        if command.is_some() && self.may_ask(command) {
            self.heed(controller);
        }
        if self.may_ask(command) {
            Next::GoOn
        } else {
            Next::Leave
        }
    }

    fn keep_call(&mut self, _call: Call) -> Result<(), KeepFault> {
        Ok(())
    }

    fn keep_sent(&mut self, _unit: u8, _command: &Command, _bytes: &[u8]) -> Result<(), KeepFault> {
        self.console.note_sent();
        Ok(())
    }

    fn note_end(&mut self, heard: Option<Heard>) {
        self.console.note_end(heard);
        let Some(heard) = heard else {
            self.signs.note_silence();
            return;
        };
        if let Heard::Reply(Reply::State(_, Some(state))) = heard {
            self.state = Some(state);
        }
        self.signs.note_heard(heard);
    }

    fn see(&mut self, controller: &Controller<Rest<S>>) {
        match self.purpose {
            Purpose::Vacancy => self.console.see(self.controller),
            Purpose::Port | Purpose::ClipEnd | Purpose::Hold => self.console.see(controller),
        }
    }
}

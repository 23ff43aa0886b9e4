//! The operator's part in a run: calls are taken, and commands wait.
ghost use Rattle.arrayvec.specs.ArrayString.{ArrayString};
ghost use Rattle.std.specs.Duration.{as_nanos};
ghost use Rattle.std.specs.Option.{unwrap_or};
ghost use Rattle.std.specs.Prelude.{◌≡◌, ◌↔◌, ◌*◌, ◌+◌, ◌-◌, ◌^◌, ◌≤◌, min, IfSome, IsFalse, IsSome, IsTrue, [], List, None, Option, Some, drop, false, true, is_some, option_map, ℕ};
ghost use Rattle.vdcp_auto.specs.Plan.{plan_of};
ghost use Rattle.vdcp_auto.specs.Turn.{awaited, given};
ghost use Rattle.vdcp_list.specs.Rests.{items_left};
ghost use Rattle.vdcp_operator.specs.Hands.{Asks, AwaitsLead, HasCome, Heeds, IsOver, IsSaid, PageCalls, TypedSays, as_said, asks_state, ender_while, ends_by, given_now, holds_back, millis_of, start_after, until_for};
ghost use Rattle.vdcp_operator.specs.LeftOut.{IsNextKept, LeavesOutAhead, ahead_of};
ghost use Rattle.vdcp_operator.specs.OnList.{list_after, list_by, list_called, sparing_each};
ghost use Rattle.vdcp_operator.specs.Polls.{Paces};
ghost use Rattle.vdcp_operator.specs.Waiting.{first_call, first_held, givable, held_after, is_called, will_hold};
ghost use Rattle.vdcp_operator.specs.declared.hand.Ender.{Ender};
ghost use Rattle.vdcp_operator.specs.declared.hand.Until.{Until};
ghost use Rattle.vdcp_operator.specs.declared.shown.RunPage.{RunPage};
ghost use Rattle.vdcp_words.specs.declared.command.Command.{Command};

use crate::ahead::{Ahead, ahead_of};
use crate::left_out::CallFault;
use crate::on_list::OnList;
use crate::polling::Polling;
use crate::seen::{EventBefore, HandSeen};
use crate::shown::RunPage;
use crate::typed::{Said, Typed};
use crate::waiting::{Waiting, call_at, first_held, is_called, will_hold};
use std::fmt;
use std::io::{Read, Write};
use std::rt::Clock;
use std::time::Duration;
use vdcp_auto::{Controller, ListCall, Outcome, Phase, Source, Standing};
use vdcp_drive::Call;
use vdcp_list::Rest;
use vdcp_panel as panel;
use vdcp_wire::Stopwatch;
use vdcp_words::Command;

// In nanoseconds: a wait is cut into such pieces, between which requests for the page are answered.
const PIECE: u64 = 20_000_000;

// How long before the start the first command goes out, in milliseconds: the cue takes some time.
const LEAD: u64 = 2_000;

const HELD: &'static str = "holding: nothing new goes to air until go";

// Nobody can say so.
const HELD_ALONE: &'static str =
    "holding: nothing new goes to air until go: begin it with --operator or --panel";

// How many pieces of time the page is still shown after the run's end, so that a browser sees it.
const LINGER: u64 = 50;

/// Reads calls, answers requests for the page, and holds commands back: a STATUS also in a run without an operator.
#[derive(Drop)]
pub struct Hand<'a, R: Clock, I: Read, E: Write> {
    clock: &'a R,
    typed: Option<Typed<I>>,
    told: E,
    page: Option<RunPage>,
    // When the first PLAY goes out, since 1970, if that is waited for.
    start: Option<Duration>,
    // What the clock last showed, since 1970; None if it couldn't be read.
    time: Option<Duration>,
    // How long the start was waited for.
    slept: Stopwatch<&'a R>,
    polling: Polling<'a, R>,
    commands: u64,
    list: OnList,
    waiting: Waiting,
}

/// Until when calls are asked for.
#[derive(Clone, Copy)]
enum Until {
    /// Since 1970.
    Time(Duration),
    /// The state may be asked again.
    Poll,
    /// They are asked for once.
    Now,
}

/// Which calls that wait end the asking for more.
#[derive(Clone, Copy)]
pub enum Ender {
    Each,
    TakeOrStop,
}

impl<'a, R: Clock, I: Read + Drop, E: Write> Hand<'a, R, I, E> {
    /// Calls are read from `typed`, and `told` gets a line for what is no call. The first event goes to air at `start`,
    /// since 1970. From one STATUS to the next at least `poll` milliseconds pass. Only a run that stays leaves out events.
    pub fn new(
        clock: &'a R,
        typed: Option<I>,
        told: E,
        page: Option<RunPage>,
        start: Option<Duration>,
        poll: u32,
        stays: bool,
    ) -> Self
        ensures page { result.page ≡ page }
        ensures start { result.start ≡ start }
        ensures typed { IsSome result.typed ↔ IsSome typed }
        ensures waiting { result.waiting.items ≡ [] }
        ensures least { result.polling.least ≡ poll * 1000000 }
        ensures due { result.polling.due ≡ 0 }
        ensures holds { result.list.holds ≡ false }
        ensures stays { result.list.left_out.stays ≡ stays }
        ensures none { result.list.left_out.spans.items ≡ [] }
    {
        Hand {
            clock,
            typed: match typed {
                Some(reader) => Some(Typed::new(reader)),
                None => None,
            },
            told,
            page,
            start,
            time: None,
            slept: Stopwatch::new(clock),
            polling: Polling::new(clock, poll),
            commands: 0,
            list: OnList::new(stays),
            waiting: Waiting::new(),
        }
    }

    /// Heeds calls that a journal has, but leaves out no event that is wanted all the same. If the list is held by them it is
    /// told, and an alarm.
    pub fn set_list_calls(&mut self, calls: &[ListCall], wanted: Option<usize>)
        ensures list { self.new.list ≡ list_by (sparing_each wanted calls.now) self.old.list }
        ensures rest { self.new ≡ record self.old { told = self.new.told; page = self.new.page; list = self.new.list } }
    {
        let held = self.list.holds;
        self.list.heed_all(calls, wanted);
        if self.list.holds && !held {
            self.tell_held();
            self.set_alarm(&HELD);
        }
    }

    pub fn awaits_start(&self) -> bool
        ensures { result ≡ is_some self.now.start }
    {
        self.start.is_some()
    }

    /// The first event from this one on that isn't left out, by their numbers in the whole list. After `heed_call` it may be
    /// another one than before.
    pub fn next_kept(&self, event: usize) -> usize
        ensures { IsNextKept self.now.list.left_out event result }
    {
        self.list.left_out.next_kept(event)
    }

    /// Whether the next event is cued and held back: the operator holds, and wants neither to take nor to stop. No command is
    /// to be sent, though `call` gives None.
    pub fn holds_back<S: Source>(&self, controller: &Controller<Rest<S>>) -> bool
        ensures { result ≡ holds_back self.now.list.holds controller.now.state }
    {
        let snapshot = controller.snapshot();
        match snapshot.standing {
            Standing::Ready(Phase::Wait(_) | Phase::Play(_)) => {
                self.list.holds && !snapshot.take && !snapshot.stop
            }
            _ => false,
        }
    }

    pub fn holds(&self) -> bool
        ensures { result ≡ self.now.list.holds }
    {
        self.list.holds
    }

    /// The first call that was said and isn't kept yet. Stop goes before all others.
    pub fn held(&self) -> Option<Said>
        ensures { result ≡ first_held self.now.waiting.items }
    {
        first_held(&self.waiting)
    }

    /// Whether one of those that wait is take or stop.
    pub fn is_called(&self) -> bool
        ensures { result ≡ is_called self.now.waiting.items }
    {
        is_called(self.waiting.as_slice())
    }

    pub fn set_before(&mut self, before: Vec<EventBefore>)
        ensures { self.new ≡ record self.old { page = option_map (λ (page : RunPage). record page { before = before }) self.old.page } }
    {
        if let Some(page) = &mut self.page {
            page.set_before(before);
        }
    }

    /// The page says from now on that there is no connection.
    pub fn note_connecting(&mut self)
        ensures { (now : ℕ) × (self.new ≡ record self.old {
          page = option_map (λ (page : RunPage). record page { down = Some (unwrap_or page.down now) }) self.old.page;
        }) }
    {
        if let Some(page) = &mut self.page {
            page.note_connecting(self.clock);
        }
    }

    /// The page says from now on that there is one.
    pub fn note_connected(&mut self)
        ensures { self.new ≡ record self.old { page = option_map (λ (page : RunPage). record page { down = None }) self.old.page } }
    {
        if let Some(page) = &mut self.page {
            page.note_connected();
        }
    }

    /// The page shows this alarm from now on, its first 256 bytes at most.
    pub fn set_alarm<T: fmt::Display>(&mut self, words: &T)
        ensures { (alarm : ArrayString) × (self.new ≡ record self.old {
          page = option_map (λ (page : RunPage). record page { alarm = alarm; alarms = min (page.alarms + 1) (2 ^ 64 - 1) }) self.old.page;
        }) }
    {
        if let Some(page) = &mut self.page {
            page.set_alarm(words);
        }
    }

    /// Waits until two seconds before the start, if one is set, or until take or stop. Other calls wait, too.
    pub fn await_lead<S: Source>(&mut self, controller: &Controller<Rest<S>>)
        ensures asks { Asks (ends_by Ender.TakeOrStop) S.items I.remaining controller.now self.old.list self.old.waiting.items
            self.old.page self.old.typed self.new.waiting.items self.new.page self.new.typed }
        ensures list { self.new.list ≡ self.old.list }
    {
        if let Some(until) = lead_until(self.start) {
            self.ask_until(controller, until, Ender::TakeOrStop);
        }
    }

    /// Waits until the next command may go out, if it is a STATUS, held back or not; or until such a call. All calls wait.
    pub fn await_poll<S: Source>(&mut self, controller: &Controller<Rest<S>>, ender: Ender)
        ensures asks { Asks (ends_by ender) S.items I.remaining controller.now self.old.list self.old.waiting.items
            self.old.page self.old.typed self.new.waiting.items self.new.page self.new.typed }
        ensures list { self.new.list ≡ self.old.list }
        ensures paces { ends_by ender self.new.waiting.items ≡ false →
            Paces (given (plan_of (items_left S.items) controller.now) controller.now.state) self.old.polling self.new.polling }
    {
        let command = controller.to_send();
        self.ask_until(controller, until_for(false, command, None), ender);
        if self.ends(ender) {
            return;
        }
        self.note_sent(command);
    }

    /// Answers requests for the page, and lets the next call wait that is said, if there is one. Gives the first that waits.
    pub fn heed<S: Source>(&mut self, controller: &Controller<Rest<S>>) -> Option<Said>
        ensures held { result ≡ first_held self.new.waiting.items }
        ensures heeds { Heeds S.items I.remaining controller.now self.old.list self.old.waiting.items self.old.page self.old.typed
            self.new.waiting.items self.new.page self.new.typed }
        ensures rest { self.new ≡ record self.old { told = self.new.told; page = self.new.page; typed = self.new.typed; waiting = self.new.waiting } }
    {
        let said = self.look(controller);
        self.tell_waiting(said);
        self.held()
    }

    /// Waits until the next command may go out, and answers requests for the page meanwhile. A call that waits or is said
    /// ends this, and is given, one on the list once no state is awaited: take and stop wait for nothing, not even for the
    /// start. It is given until `heed_call`; what can't be obeyed any more is told, and dropped. What is held back isn't waited
    /// for, nor counted (`holds_back`).
    pub fn call<S: Source>(&mut self, controller: &Controller<Rest<S>>) -> Option<Call>
        ensures asks { Asks (ends_by (ender_while (asks_state (awaited (plan_of (items_left S.items) controller.now) controller.now.state)))) S.items I.remaining controller.now self.old.list
            (givable self.old.list.left_out (ahead_of S.items controller.now) self.old.waiting.items)
            self.old.page self.old.typed self.new.waiting.items self.new.page self.new.typed }
        ensures gives { result ≡ given_now (asks_state (awaited (plan_of (items_left S.items) controller.now) controller.now.state))
            (first_call self.old.list.left_out (ahead_of S.items controller.now) self.new.waiting.items) }
        ensures list { self.new.list ≡ self.old.list }
        ensures leaves { IfSome result (λ call. LeavesOutAhead (ahead_of S.items controller.now) self.old.list.left_out (list_called call self.old.list).left_out) }
        ensures unattended { self.old.waiting.items ≡ [] → self.old.page ≡ None → self.old.typed ≡ None →
            (result ≡ None) × (self.new.page ≡ None) × (self.new.typed ≡ None) }
        ensures start { IfSome result (λ call. self.new.start ≡ start_after call self.old.start) }
        ensures starts { (start : Duration) → result ≡ None → self.old.start ≡ Some start →
            given (plan_of (items_left S.items) controller.now) controller.now.state ≡ Some Command.Play →
            holds_back self.old.list.holds controller.now.state ≡ false → HasCome start self.new.time }
        ensures sent { result ≡ None →
            given (plan_of (items_left S.items) controller.now) controller.now.state ≡ Some Command.Play →
            holds_back self.old.list.holds controller.now.state ≡ false → self.new.start ≡ None }
        ensures unsent { result ≡ None → holds_back self.old.list.holds controller.now.state ≡ true →
            (self.new.start ≡ self.old.start) × (self.new.commands ≡ self.old.commands) × Paces None self.old.polling self.new.polling }
        ensures paces { result ≡ None → holds_back self.old.list.holds controller.now.state ≡ false →
            Paces (given (plan_of (items_left S.items) controller.now) controller.now.state) self.old.polling self.new.polling }
        ensures hurries { IsSome result → self.new.polling.due ≡ 0 }
        ensures least { self.new.polling.least ≡ self.old.polling.least }
    {
        if self.is_alone() {
            // (where no STATUS has to wait the command isn't looked up)
            if !self.polling.never_waits() {
                self.note_sent(controller.to_send());
            }
            return None;
        }
        let (ahead, awaiting) = (ahead_of(controller), awaits_state(controller));
        if let Some(call) = self.first_call(ahead, awaiting) {
            return Some(call);
        }
        let (command, is_held) = (controller.to_send(), self.holds_back(controller));
        let until = until_for(is_held, command, self.start);
        self.ask_until(controller, until, ender_while(awaiting));
        if let Some(call) = self.first_call(ahead, awaiting) {
            return Some(call);
        }
        if is_held {
            return None;
        }
        self.note_sent(command);
        None
    }

    /// A call is kept: it is the first that waits, and waits no more. What it says of the list is done, and told.
    pub fn heed_call(&mut self, call: Call)
        ensures waiting { self.new.waiting.items ≡ drop 1 self.old.waiting.items }
        ensures list { self.new.list ≡ list_called call self.old.list }
        ensures rest { self.new ≡ record self.old { told = self.new.told; list = self.new.list; waiting = self.new.waiting } }
    {
        let _ = self.waiting.pop_at(0);
        let Call::List(call) = call else {
            return;
        };
        if !self.list.heed(call) {
            self.tell(&CallFault::Full);
            return;
        }
        match call {
            ListCall::Hold => self.tell_held(),
            ListCall::Go => self.tell(&"going on"),
            ListCall::Skip { first, end } if first.saturating_add(1) == end => {
                self.tell(&format_args!("event {first} is left out"))
            }
            ListCall::Skip { end, .. } => self.tell(&format_args!("going on with event {end}")),
        }
    }

    /// Shows for a second how the run ended.
    pub fn show_end<S: Source>(
        &mut self,
        controller: &Controller<Rest<S>>,
        outcome: Option<Outcome>,
    ) {
        let Some(page) = &mut self.page else {
            return;
        };
        let seen = HandSeen {
            commands: self.commands,
            start: None,
            holds: self.list.holds,
            left_out: &self.list.left_out,
        };
        for _ in 0..LINGER {
            page.show(self.clock, controller, Some(outcome), seen);
            self.clock.sleep(Duration::from_nanos(PIECE));
        }
    }

    fn is_alone(&self) -> bool
        ensures waiting { IsTrue result → self.now.waiting.items ≡ [] }
        ensures page { IsTrue result → self.now.page ≡ None }
        ensures typed { IsTrue result → self.now.typed ≡ None }
        ensures start { IsTrue result → self.now.start ≡ None }
        ensures holds { IsTrue result → self.now.list.holds ≡ false }
    {
        let nobody_calls = self.waiting.is_empty() && self.page.is_none() && self.typed.is_none();
        nobody_calls && self.start.is_none() && !self.list.holds
    }

    fn ask_until<S: Source>(&mut self, controller: &Controller<Rest<S>>, until: Until, ender: Ender)
        ensures asks { Asks (ends_by ender) S.items I.remaining controller.now self.old.list self.old.waiting.items
            self.old.page self.old.typed self.new.waiting.items self.new.page self.new.typed }
        ensures list { self.new.list ≡ self.old.list }
        ensures start { self.new.start ≡ self.old.start }
        ensures commands { self.new.commands ≡ self.old.commands }
        ensures paces { Paces None self.old.polling self.new.polling }
        ensures waited { (time : Duration) → until ≡ Until.Time time → ends_by ender self.new.waiting.items ≡ false → HasCome time self.new.time }
    {
        if self.ends(ender) {
            return;
        }
        'asks: for _ in 0..u64::MAX {
            let said = self.look(controller);
            if self.ends(ender) {
                return;
            }
            if self.wait_piece(until) {
                return;
            }
            self.tell_waiting(said);
        }
        // (a clock that stands still for so long shows no time)
        self.time = None;
    }

    fn ends(&self, ender: Ender) -> bool
        ensures { result ≡ ends_by ender self.now.waiting.items }
    {
        match ender {
            Ender::Each => !self.waiting.is_empty(),
            Ender::TakeOrStop => self.is_called(),
        }
    }

    // Gives what is said, if it waits now.
    fn look<S: Source>(&mut self, controller: &Controller<Rest<S>>) -> Option<Said>
        ensures heeds { Heeds S.items I.remaining controller.now self.old.list self.old.waiting.items self.old.page self.old.typed
            self.new.waiting.items self.new.page self.new.typed }
        ensures rest { self.new ≡ record self.old { told = self.new.told; page = self.new.page; typed = self.new.typed; waiting = self.new.waiting } }
    {
        let said = self.next_said(controller)?;
        match self.hold(said, ahead_of(controller)) {
            Ok(()) => Some(said),
            Err(fault) => {
                self.tell(&fault);
                None
            }
        }
    }

    fn next_said<S: Source>(&mut self, controller: &Controller<Rest<S>>) -> Option<Said>
        ensures said { IsSaid S.items I.remaining controller.now self.old.list self.old.waiting.items self.old.page self.old.typed result self.new.page self.new.typed }
        ensures rest { self.new ≡ record self.old { page = self.new.page; typed = self.new.typed } }
    {
        match self.page_call(controller) {
            Some(call) => Some(as_said(call)),
            None => self.typed_line(),
        }
    }

    fn page_call<S: Source>(&mut self, controller: &Controller<Rest<S>>) -> Option<panel::Call>
        ensures page { PageCalls S.items controller.now self.old.list self.old.waiting.items self.old.page result self.new.page }
        ensures rest { self.new ≡ record self.old { page = self.new.page } }
    {
        let start = millis_of(self.start);
        let Some(page) = &mut self.page else {
            return None;
        };
        let seen = HandSeen {
            commands: self.commands,
            start,
            holds: will_hold(self.waiting.as_slice(), self.list.holds),
            left_out: &self.list.left_out,
        };
        page.show(self.clock, controller, None, seen);
        page.next_call()
    }

    fn typed_line(&mut self) -> Option<Said>
        ensures typed { TypedSays I.remaining self.old.typed result self.new.typed }
        ensures rest { self.new ≡ record self.old { typed = self.new.typed } }
    {
        let Some(typed) = &mut self.typed else {
            return None;
        };
        typed.next()
    }

    // A call that can be obeyed waits from now on: stop in place of all others.
    fn hold(&mut self, said: Said, ahead: Ahead) -> Result<(), CallFault>
        ensures waiting { self.new.waiting.items ≡ held_after self.old.list.left_out ahead (Some said) self.old.waiting.items }
        ensures rest { self.new ≡ record self.old { waiting = self.new.waiting } }
    {
        let _ = call_at(&self.list.left_out, ahead, said)?;
        if said == Said::Stop {
            self.waiting.clear();
        }
        match self.waiting.try_push(said) {
            Ok(()) => Ok(()),
            Err(_) => Err(CallFault::Crowded),
        }
    }

    // Gives the first call that waits and can still be obeyed; those before it are told, and dropped.
    fn first_call(&mut self, ahead: Ahead, awaiting: bool) -> Option<Call>
        ensures waiting { self.new.waiting.items ≡ givable self.old.list.left_out ahead self.old.waiting.items }
        ensures gives { result ≡ given_now awaiting (first_call self.old.list.left_out ahead self.new.waiting.items) }
        ensures start { IfSome result (λ call. self.new.start ≡ start_after call self.old.start) }
        ensures hurries { IsSome result → self.new.polling ≡ record self.old.polling { due = 0 } }
        ensures none { result ≡ None → (self.new.start ≡ self.old.start) × (self.new.polling ≡ self.old.polling) }
        ensures rest { self.new ≡ record self.old { told = self.new.told; start = self.new.start; polling = self.new.polling; waiting = self.new.waiting } }
    {
        'refused: while let Some(said) = self.held() {
            match call_at(&self.list.left_out, ahead, said) {
                Ok(call) => return self.give(call, awaiting),
                Err(fault) => {
                    let _ = self.waiting.pop_at(0);
                    self.tell(&fault);
                }
            }
        }
        None
    }

    fn wait_piece(&mut self, until: Until) -> bool
        ensures over { IsTrue result → IsOver until self.new.time self.old.polling.due self.new.polling.stopwatch.now }
        ensures paces { Paces None self.old.polling self.new.polling }
        ensures rest { self.new ≡ record self.old { time = self.new.time; slept = self.new.slept; polling = self.new.polling } }
    {
        match until {
            Until::Time(time) => self.wait_for(time),
            Until::Poll => self.polling.wait_piece(PIECE),
            Until::Now => true,
        }
    }

    // Waits for one piece at most, and answers whether this time, since 1970, has come.
    fn wait_for(&mut self, time: Duration) -> bool
        ensures come { IsTrue result ↔ HasCome time self.new.time }
        ensures piece { self.new.slept.now ≤ self.old.slept.now + 20000000 }
        ensures rest { self.new ≡ record self.old { time = self.new.time; slept = self.new.slept } }
    {
        self.time = self.clock.since_1970().ok();
        let left = match self.time {
            Some(now) => time.saturating_sub(now),
            None => Duration::ZERO,
        };
        if left.is_zero() {
            return true;
        }
        self.slept.sleep(piece_of(left));
        false
    }

    fn give(&mut self, call: Call, awaiting: bool) -> Option<Call>
        ensures gives { result ≡ given_now awaiting (Some call) }
        ensures some { IsSome result → self.new ≡ record self.old { start = start_after call self.old.start; polling = record self.old.polling { due = 0 } } }
        ensures none { result ≡ None → self.new ≡ self.old }
        ensures rest { self.new ≡ record self.old { start = self.new.start; polling = self.new.polling } }
    {
        match (call, awaiting) {
            (Call::List(_), true) => return None,
            (Call::List(_), false) => {}
            (Call::Take | Call::Stop, _) => self.start = None,
        }
        self.polling.hurry();
        Some(call)
    }

    // A STATUS waits here until it may go out.
    fn note_sent(&mut self, command: Option<Command>)
        ensures paces { Paces command self.old.polling self.new.polling }
        ensures play { command ≡ Some Command.Play → self.new.start ≡ None }
        ensures rest { self.new ≡ record self.old { start = self.new.start; polling = self.new.polling; commands = self.new.commands } }
    {
        self.commands = self.commands.saturating_add(u64::from(command.is_some()));
        match command {
            Some(Command::Play) => self.start = None,
            Some(Command::Status(_)) => self.polling.wait(),
            _ => {}
        }
    }

    fn tell_waiting(&mut self, said: Option<Said>)
        ensures { self.new ≡ record self.old { told = self.new.told } }
    {
        match said {
            None | Some(Said::Stop) => {}
            Some(said) => self.tell(&format_args!("waiting: {said}")),
        }
    }

    fn tell_held(&mut self)
        ensures { self.new ≡ record self.old { told = self.new.told } }
    {
        if self.typed.is_none() && self.page.is_none() {
            self.tell(&HELD_ALONE);
        } else {
            self.tell(&HELD);
        }
    }

    fn tell<T: fmt::Display>(&mut self, line: &T)
        ensures { self.new ≡ record self.old { told = self.new.told } }
    {
        let _ = writeln!(self.told, "vdcp: {line}");
        let _ = self.told.flush();
    }
}

fn until_for(is_held: bool, command: Option<Command>, start: Option<Duration>) -> Until
    ensures { result ≡ until_for is_held command start }
{
    match (is_held, command, start) {
        (false, Some(Command::Play), Some(start)) => Until::Time(start),
        (false, Some(Command::Status(_)), _) => Until::Poll,
        _ => Until::Now,
    }
}

// A state that was asked for before a call on the list, and is heard behind its row, could announce a PLAY.
fn awaits_state<S: Source>(controller: &Controller<Rest<S>>) -> bool
    ensures { result ≡ asks_state (awaited (plan_of (items_left S.items) controller.now) controller.now.state) }
{
    matches!(controller.awaited(), Some(Command::Status(_)))
}

// While a state is awaited a call on the list isn't given.
fn ender_while(awaiting: bool) -> Ender
    ensures { result ≡ ender_while awaiting }
{
    if awaiting {
        Ender::TakeOrStop
    } else {
        Ender::Each
    }
}

fn piece_of(left: Duration) -> u64
    ensures { result ≡ min (as_nanos left) 20000000 }
{
    match u64::try_from(left.as_nanos()) {
        Ok(left) => left.min(PIECE),
        Err(_) => PIECE,
    }
}

fn lead_until(start: Option<Duration>) -> Option<Until>
    ensures { AwaitsLead start result }
{
    match start {
        Some(start) => Some(Until::Time(start.saturating_sub(Duration::from_millis(LEAD)))),
        None => None,
    }
}

fn millis_of(time: Option<Duration>) -> Option<u64>
    ensures { result ≡ millis_of time }
{
    u64::try_from(time?.as_millis()).ok()
}

fn as_said(call: panel::Call) -> Said
    ensures { result ≡ as_said call }
{
    match call {
        panel::Call::Take => Said::Take,
        panel::Call::Stop => Said::Stop,
        panel::Call::Hold => Said::Hold,
        panel::Call::Go => Said::Go,
        panel::Call::Skip(event) => Said::Skip(event),
    }
}

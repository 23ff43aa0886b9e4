//! The operator's side of a run: calls, page, progress line and what is told.
ghost use Rattle.std.specs.Prelude.{ℕ, ◌≡◌, ◌≢◌, ◌⊎◌, ◌+◌, IsFalse, IsTrue, Some, false};
ghost use Rattle.vdcp_run.specs.Ends.{Reports};
ghost use Rattle.vdcp_run.specs.Run.{HasAsrun};
ghost use Rattle.vdcp_auto.specs.Plan.{plan_of};
ghost use Rattle.vdcp_auto.specs.Turn.{awaited};
ghost use Rattle.vdcp_list.specs.Rests.{items_left};
ghost use Rattle.vdcp_operator.specs.Hands.{asks_state, given_now, holds_back};
ghost use Rattle.vdcp_operator.specs.LeftOut.{IsNextKept, ahead_of};
ghost use Rattle.vdcp_operator.specs.Waiting.{first_call};
ghost use Rattle.vdcp_drive.specs.declared.hooks.Call.{Call};
ghost use Rattle.vdcp_run.specs.Session.{IsBeforeEvent, LeavesBefore};

use crate::in_list::reported_in_list;
use crate::lack::Lack;
use crate::run_end::{LineEnd, RunEnd, Signs, ended};
use crate::settings::{RunJournal, RunSettings, Staying, Unsure};
use crate::stalling::Stalling;
use crate::staying::later_of;
use std::rt::{Clock, Files};
use std::{fmt, io};
use vdcp_auto::{Controller, Heard, Mode, Phase, Source, Standing};
use vdcp_drive::{Call, Next};
use vdcp_list::Rest;
use vdcp_log::Log;
use vdcp_operator::{Hand, Progress};
use vdcp_text::{Failure, OutcomeText};

const ERASE: &'static str = "\r\x1b[K";

#[derive(Drop)]
pub struct Console<'r, 'l, R: Clock, I: io::Read, O: io::Write, V: io::Write> {
    pub hand: Hand<'r, R, I, O>,
    pub log: &'l Log<V>,
    pub rt: &'r R,
    progress: Option<Progress<'r, R, V>>,
    stalling: Stalling<'r, R>,
    // Whether the line was told to be down.
    is_down: bool,
    // Whether the port was told not to be empty.
    is_occupied: bool,
}

impl<
    'r,
    'l,
    R: Files + Clock + AllocGlobal,
    I: io::Read + Drop,
    O: io::Write + Drop,
    V: io::Write + Drop,
> Console<'r, 'l, R, I, O, V> {
    /// `terminal` gets the progress line.
    pub fn new(
        rt: &'r R,
        hand: Hand<'r, R, I, O>,
        terminal: Option<V>,
        log: &'l Log<V>,
        settings: RunSettings<'_>,
    ) -> Self {
        Console {
            hand,
            log,
            rt,
            progress: match terminal {
                Some(terminal) => {
                    let mut progress = Progress::new(rt, terminal, settings.silence);
                    progress.set_rate(settings.rate);
                    Some(progress)
                }
                None => None,
            },
            stalling: Stalling::new(rt, settings.hearing),
            is_down: false,
            is_occupied: false,
        }
    }

    pub fn note_sent(&mut self)
        ensures { self.new.hand ≡ self.old.hand }
    {
        if let Some(progress) = &mut self.progress {
            progress.note_sent();
        }
    }

    pub fn note_end(&mut self, heard: Option<Heard>)
        ensures { self.new.hand ≡ self.old.hand }
    {
        self.stalling.note_end(heard);
        if let Some(progress) = &mut self.progress {
            progress.note_end(heard);
        }
    }

    /// Draws the progress line, and tells a stall.
    pub fn see<S: Source>(&mut self, controller: &Controller<Rest<S>>)
        ensures { self.new.hand ≡ self.old.hand }
    {
        if self.stalling.look(controller) {
            let event = controller.source().from();
            self.tell(&format_args!(
                "event {event} is still being cued: if frames pass at the server's silences, serve with --real-time, or run with a longer --poll"
            ));
        }
        if let Some(progress) = &mut self.progress {
            progress.set_holds(self.hand.holds());
            progress.see(controller);
        }
    }

    /// What a run does next, as the operator wants. It is left if the next event is left out, as long as no PLAY may have put
    /// it to air, or if what is cued is held back. A take is for an event that isn't left out: before one that is, it waits on.
    pub fn next<S: Source>(&mut self, controller: &Controller<Rest<S>>) -> Next
        ensures before { LeavesBefore controller.now.mode controller.now.state.stage result }
        ensures holds { result ≡ Next.GoOn → holds_back self.old.hand.list.holds controller.now.state ≡ false }
        ensures kept { result ≡ Next.GoOn → IsBeforeEvent controller.now.mode controller.now.state.stage →
            controller.now.state.stop ≡ false →
            IsNextKept self.old.hand.list.left_out (controller.now.source.from + controller.now.state.settled)
            (controller.now.source.from + controller.now.state.settled) }
        ensures take { result ≡ Next.Call Call.Take → controller.now.state.stop ≡ false →
            IsNextKept self.old.hand.list.left_out (controller.now.source.from + controller.now.state.settled)
            (controller.now.source.from + controller.now.state.settled) }
        ensures said { (call : Call) → result ≡ Next.Call call →
            given_now (asks_state (awaited (plan_of (items_left S.items) controller.now) controller.now.state))
            (first_call self.old.hand.list.left_out (ahead_of S.items controller.now) self.new.hand.waiting.items) ≡ Some call }
        ensures list { self.new.hand.list ≡ self.old.hand.list }
    {
        match self.hand.call(controller) {
            // (a take that waits on)
            Some(Call::Take) if self.leaves_out_next(controller) => {}
            Some(call) => return Next::Call(call),
            None => {}
        }
        if self.leaves_here(controller) {
            Next::Leave
        } else {
            Next::GoOn
        }
    }

    fn leaves_here<S: Source>(&self, controller: &Controller<Rest<S>>) -> bool
        ensures before { IsTrue result → LeavesBefore controller.now.mode controller.now.state.stage Next.Leave }
        ensures holds { IsTrue (holds_back self.now.hand.list.holds controller.now.state) → IsTrue result }
        ensures kept { IsFalse result → IsBeforeEvent controller.now.mode controller.now.state.stage →
            controller.now.state.stop ≡ false →
            IsNextKept self.now.hand.list.left_out (controller.now.source.from + controller.now.state.settled)
            (controller.now.source.from + controller.now.state.settled) }
    {
        let leaves_out = is_before_event(controller) && self.leaves_out_next(controller);
        leaves_out || self.hand.holds_back(controller)
    }

    // Whether the next event is left out, unless the run is to stop.
    fn leaves_out_next<S: Source>(&self, controller: &Controller<Rest<S>>) -> bool
        ensures left_out { IsTrue result → (kept : ℕ)
            × IsNextKept self.now.hand.list.left_out (controller.now.source.from + controller.now.state.settled) kept
            × (kept ≢ controller.now.source.from + controller.now.state.settled) }
        ensures stops { IsTrue result → controller.now.state.stop ≡ false }
        ensures kept { IsFalse result → controller.now.state.stop ≡ false →
            IsNextKept self.now.hand.list.left_out (controller.now.source.from + controller.now.state.settled)
            (controller.now.source.from + controller.now.state.settled) }
    {
        let event = reported_in_list(controller);
        self.hand.next_kept(event) != event && !controller.snapshot().stop
    }

    /// Tells how the run goes on after this try.
    pub fn tell_again(&mut self, end: &Result<RunEnd<'_>, Failure<'_>>, later: RunSettings<'_>)
        ensures { self.new.hand.list ≡ self.old.hand.list }
    {
        let end = match end {
            Ok(end) => end,
            Err(Failure::NotEmpty) => {
                self.tell_occupied();
                return;
            }
            Err(failure) => {
                self.tell_unsure(failure, later);
                return;
            }
        };
        self.is_occupied = false;
        if let LineEnd::LeftOut(kept) = end.line {
            self.alarm(&format_args!("left out: by hand; going on with event {kept}"));
            return;
        }
        let (event, outcome) = (end.reported, OutcomeText(end.told_outcome()));
        match (end.line.failure(), later.journal) {
            (Some(failure), _) => self.tell_down(&format_args!("{failure}; connecting again")),
            (None, Some(RunJournal::Older(_))) => self.tell_down(&"lost; connecting again"),
            (None, _) if later.leaves_out() => self.alarm(&format_args!("left out: {outcome}")),
            (None, _) => self.alarm(&format_args!("port lost: going on with event {event}")),
        }
    }

    // It is asked again each second, and told once.
    fn tell_occupied(&mut self)
        ensures { self.new.hand.list ≡ self.old.hand.list }
    {
        if !self.is_occupied {
            self.alarm(&"port not empty: asking again");
            self.is_occupied = true;
        }
    }

    fn tell_unsure(&mut self, failure: &Failure<'_>, later: RunSettings<'_>)
        ensures { self.new.hand.list ≡ self.old.hand.list }
    {
        match later.stay {
            Some(
                Staying {
                    unsure: Unsure::Again,
                    ..
                },
            ) => {
                self.alarm(&format_args!("sent again: {failure}"));
            }
            _ => self.alarm(&format_args!("left out: {failure}")),
        }
    }

    pub fn tell_down<T: fmt::Display>(&mut self, why: &T)
        ensures { self.new.hand.list ≡ self.old.hand.list }
    {
        self.alarm(&format_args!("line down: {why}"));
        self.is_down = true;
    }

    /// Tells that there is a connection, if it was told that there is none.
    pub fn tell_up(&mut self)
        ensures { self.new.hand.list ≡ self.old.hand.list }
    {
        if self.is_down {
            self.alarm(&"line up");
            self.is_down = false;
        }
        if let Some(progress) = &mut self.progress {
            progress.note_up();
        }
    }

    /// Draws the progress line while there is no connection, once that was told.
    pub fn see_down(&mut self)
        ensures { self.new.hand ≡ self.old.hand }
    {
        if self.is_down
            && let Some(progress) = &mut self.progress
        {
            progress.see_down();
        }
    }

    // Tells it, and the page has the same words.
    fn alarm<T: fmt::Display>(&mut self, words: &T)
        ensures { self.new.hand.list ≡ self.old.hand.list }
    {
        self.tell(words);
        self.hand.set_alarm(words);
    }

    /// Tells a line in place of the progress line.
    pub fn tell<T: fmt::Display>(&self, line: &T) {
        let erases = self.erases();
        self.log.tell_fault(&format_args!("{erases}vdcp: {line}"));
    }

    fn erases(&self) -> &'static str {
        if self.is_terminal() { ERASE } else { "" }
    }

    pub fn is_terminal(&self) -> bool {
        self.progress.is_some()
    }

    /// Ends the run, with `left` turns left. Unless it tries again, the as-run file is made, and the end is shown.
    pub fn end<'a, S: Source>(
        &mut self,
        controller: &Controller<Rest<S>>,
        line: LineEnd,
        signs: Signs,
        unkept: Option<Lack<'a>>,
        left: u32,
        settings: RunSettings<'a>,
    ) -> RunEnd<'a>
        ensures reports { Reports controller.now.source.from controller.now.state result }
        ensures line { result.line ≡ line }
        ensures signs { result.signs ≡ signs }
        ensures asrun { HasAsrun settings.entry (S.items controller.now.source.source) result }
        ensures kept { result.unkept ≡ unkept.entry }
        ensures left { result.left ≡ left }
    {
        let end = ended(self.rt, controller, line, signs, unkept, left, settings);
        if later_of(&end, controller.source().whole().len(), settings).is_none() {
            if let Some(progress) = &mut self.progress {
                progress.clear();
            }
            self.hand.show_end(controller, end.told_outcome());
        }
        end
    }
}

// The next event is asked about next; or, in plain mode, what comes next is for its cue, or is its PLAY: a first one, or the one
// that a state has shown to be lost, again.
fn is_before_event<S: Source>(controller: &Controller<S>) -> bool
    ensures before { IsTrue result → IsBeforeEvent controller.now.mode controller.now.state.stage }
    ensures all { IsBeforeEvent controller.now.mode controller.now.state.stage → IsTrue result }
{
    let snapshot = controller.snapshot();
    match (snapshot.standing, snapshot.mode) {
        (Standing::Ready(Phase::Exists(_)), _) => true,
        (Standing::Ready(Phase::Cue(_) | Phase::Wait(_) | Phase::Play(_)), Mode::Plain) => true,
        _ => false,
    }
}

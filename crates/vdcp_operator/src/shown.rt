//! How the page of a run follows it and takes calls.
ghost use Rattle.std.specs.Option.{option_to_list, unwrap_or};
ghost use Rattle.arrayvec.specs.ArrayString.{ArrayString as Alarm};
ghost use Rattle.std.specs.Prelude.{◌≡◌, ◌+◌, ◌-◌, ◌^◌, ◌++◌, min, [], All, None, Some, ℕ};
ghost use Rattle.vdcp_operator.specs.Rows.{IsRow, at_in, before_of, ending_after, ending_by, ending_in, ending_seen, is_on_air_known, is_waiting, known_of, news_of, older_of, row_of, until_in};
ghost use Rattle.vdcp_operator.specs.Seen.{AreRound, ShowsRun, event_of, with_number};

use crate::ahead::ahead_of;
use crate::page::PAGE;
use crate::seen::{Ending, EventBefore, EventSeen, HandSeen, Record, RunNames, RunSeen};
use arrayvec::ArrayString;
use std::alloc::Global;
use std::fmt::{self, Write};
use std::rt::Clock;
use vdcp_auto::{Controller, Outcome, Phase, Snapshot, Source, Standing};
use vdcp_list::{Rest, Table};
use vdcp_panel::{Call, Calls, Panel, milliseconds};
use vdcp_value::{Item, Rate};

/// How many events before the one that is next are shown.
pub const ROWS_BEFORE: usize = 20;

// How many are shown from it on.
const AFTER: usize = 40;

// In bytes.
const LONGEST_ALARM: usize = 256;

#[derive(Drop)]
pub struct RunPage {
    alloc: Global,
    panel: Panel,
    names: RunNames,
    rate: Rate,
    clips: Option<Table>,
    before: Vec<EventBefore>,
    // What the last look showed: the events round the next one, which one that was, and how the controller stood.
    rows: Vec<EventSeen>,
    event: Option<u64>,
    standing: Option<Standing>,
    // Since when there is no connection, if there is none.
    down: Option<u64>,
    // The last one, and how many there were.
    alarm: ArrayString<LONGEST_ALARM>,
    alarms: u64,
    calls: Calls,
}

impl RunPage {
    /// By the `clips` of a catalogue the page says how long what is on air still lasts, and when the next events come.
    pub fn new(
        alloc: Global,
        panel: Panel,
        names: RunNames,
        rate: Rate,
        clips: Option<Table>,
    ) -> Self
        ensures given { (result.panel ≡ panel) × (result.names ≡ names) × (result.rate ≡ rate) × (result.clips ≡ clips) }
        ensures fresh { (result.event ≡ None) × (result.standing ≡ None) × (result.down ≡ None)
            × (result.alarm.bytes ≡ []) × (result.alarms ≡ 0) × (result.calls.items ≡ []) }
    {
        RunPage {
            alloc,
            panel,
            names,
            rate,
            clips,
            before: Vec::new(alloc),
            rows: Vec::new(alloc),
            event: None,
            standing: None,
            down: None,
            alarm: ArrayString::new(),
            alarms: 0,
            calls: Calls::new(),
        }
    }

    pub fn set_before(&mut self, before: Vec<EventBefore>)
        ensures { self.new ≡ record self.old { before = before } }
    {
        self.before = before;
    }

    /// There is no connection, from now on if there was one.
    pub fn note_connecting<R: Clock>(&mut self, clock: &R)
        ensures { (now : ℕ) × (self.new ≡ record self.old { down = Some (unwrap_or self.old.down now) }) }
    {
        let now = milliseconds(clock);
        self.down = Some(self.down.unwrap_or(now));
    }

    pub fn note_connected(&mut self)
        ensures { self.new ≡ record self.old { down = None } }
    {
        self.down = None;
    }

    /// This is the last alarm: its first bytes, as far as they are kept.
    pub fn set_alarm<T: fmt::Display>(&mut self, words: &T)
        ensures { (alarm : Alarm) × (self.new ≡ record self.old { alarm = alarm; alarms = min (self.old.alarms + 1) (2 ^ 64 - 1) }) }
    {
        self.alarm.clear();
        let _ = write!(self.alarm, "{words}");
        self.alarms = self.alarms.saturating_add(1);
    }

    /// Answers requests for the page. `end` is None while the run goes on, Some(None) if it is over without an outcome.
    pub fn show<R: Clock, S: Source>(
        &mut self,
        clock: &R,
        controller: &Controller<Rest<S>>,
        end: Option<Option<Outcome>>,
        hand: HandSeen<'_>,
    )
        ensures { ShowsRun S.items controller.now self.old end hand.entry self.new }
    {
        let now = milliseconds(clock);
        let snapshot = controller.snapshot();
        let event = self.follow(controller, &snapshot, now);
        let seen = RunSeen {
            page: PAGE,
            names: &self.names,
            rate: self.rate,
            clips: &self.clips,
            snapshot,
            is_over: end.is_some(),
            outcome: end.flatten(),
            from: number(controller.source().from()),
            event,
            events: number(controller.source().whole().len()),
            rows: self.rows.as_slice(),
            hand,
            ahead: ahead_of(controller),
            down: self.down,
            alarm: self.alarm.as_str(),
            alarms: self.alarms,
            clock: now,
        };
        self.panel.serve_some(clock, &seen, &mut self.calls);
    }

    /// Takes the oldest call.
    pub fn next_call(&mut self) -> Option<Call>
        ensures calls { self.old.calls.items ≡ option_to_list result ++ self.new.calls.items }
        ensures none { result ≡ None → self.old.calls.items ≡ [] }
        ensures rest { self.new ≡ record self.old { calls = self.new.calls } }
    {
        if self.calls.is_empty() {
            return None;
        }
        Some(self.calls.remove(0))
    }

    // Gives the next event. What went to air or ended since the last look is taken to have done so now.
    fn follow<S: Source>(
        &mut self,
        controller: &Controller<Rest<S>>,
        snapshot: &Snapshot,
        now: u64,
    ) -> u64
        ensures event { result ≡ event_of controller.now }
        ensures round { AreRound (S.items controller.now.source.source) (event_of controller.now) self.new.rows.items }
        ensures rows { All (IsRow (news_of self.old.event self.old.standing (event_of controller.now) snapshot.now now)
            self.old.rows.items self.old.before.items) self.new.rows.items }
        ensures noted { (self.new.event ≡ Some (event_of controller.now)) × (self.new.standing ≡ Some snapshot.now.standing) }
        ensures rest { self.new ≡ record self.old { rows = self.new.rows; event = self.new.event; standing = self.new.standing } }
    {
        let event = event_of(controller);
        let news = news_of(self.event, self.standing, event, snapshot, now);
        self.rows = rows_round(
            self.alloc,
            controller.source().whole(),
            event,
            self.rows.as_slice(),
            self.before.as_slice(),
            news,
        );
        self.event = Some(event);
        self.standing = Some(snapshot.standing);
        event
    }
}

// Which event was next at the last look (`since`) and is now, and how what was on air has ended, if that is seen.
#[derive(Clone, Copy)]
struct News {
    since: u64,
    event: u64,
    ending: Option<Ending>,
    now: u64,
}

fn news_of(
    since: Option<u64>,
    before: Option<Standing>,
    event: u64,
    snapshot: &Snapshot,
    now: u64,
) -> News
    ensures { result ≡ news_of since before event snapshot.now now }
{
    News {
        since: since.unwrap_or(event),
        event,
        ending: ending_seen(before, snapshot),
        now,
    }
}

impl News {
    fn row(self, older: &[EventSeen], before: &[EventBefore], number: u64, item: Item) -> EventSeen
        ensures { result ≡ row_of self older.now before.now number item }
    {
        let said = before_of(before, number);
        let known = known_of(older_of(older, number), said);
        let ending = ending_after(known.ending, self.ending_of(number));
        EventSeen {
            number,
            item,
            kept: match said {
                Some(said) => Some(said.kept),
                None => None,
            },
            why: match said {
                Some(said) => said.why,
                None => None,
            },
            at: known.at.or(self.at(said, number)),
            until: self.until(known.until, ending),
            ending,
        }
    }

    // (an event that was left out didn't go to air, as far as is known)
    fn at(self, said: Option<EventBefore>, number: u64) -> Option<u64>
        ensures { result ≡ at_in self said number }
    {
        let is_passed = self.since <= number && number < self.event;
        match said {
            Some(
                EventBefore {
                    kept: Record::LeftOut | Record::MayHaveAired,
                    ..
                },
            ) => None,
            _ if is_passed => Some(self.now),
            _ => None,
        }
    }

    fn ending_of(self, number: u64) -> Option<Ending>
        ensures { result ≡ ending_in self number }
    {
        if number.checked_add(1) == Some(self.event) {
            self.ending
        } else {
            None
        }
    }

    fn until(self, known: Option<u64>, ending: Option<Ending>) -> Option<u64>
        ensures { result ≡ until_in self known ending }
    {
        match (known, ending) {
            (None, Some(_)) => Some(self.now),
            _ => known,
        }
    }
}

// When an event began, when it ended, and how.
#[derive(Clone, Copy)]
struct Known {
    at: Option<u64>,
    until: Option<u64>,
    ending: Option<Ending>,
}

fn known_of(older: Option<EventSeen>, said: Option<EventBefore>) -> Known
    ensures { result ≡ known_of older said }
{
    let (at, until) = match said {
        Some(said) => (said.at, said.until),
        None => (None, None),
    };
    match older {
        Some(older) => Known {
            at: older.at.or(at),
            until: older.until.or(until),
            ending: older.ending,
        },
        None => Known {
            at,
            until,
            ending: None,
        },
    }
}

fn older_of(older: &[EventSeen], number: u64) -> Option<EventSeen>
    ensures { result ≡ older_of older.now number }
{
    match older {
        [] => None,
        [first, rest @ ..] => {
            if first.number == number {
                Some(*first)
            } else {
                older_of(rest, number)
            }
        }
    }
}

fn before_of(before: &[EventBefore], number: u64) -> Option<EventBefore>
    ensures { result ≡ before_of before.now number }
{
    match before {
        [] => None,
        [first, rest @ ..] => {
            if first.number == number {
                Some(*first)
            } else {
                before_of(rest, number)
            }
        }
    }
}

// If the next event isn't taken, its PLAY goes out once a state has shown that nothing plays: the clip ran out.
fn ending_seen(before: Option<Standing>, now: &Snapshot) -> Option<Ending>
    ensures { result ≡ ending_seen before now.now }
{
    match before {
        Some(before) if now.settled > 0 => ending_by(before, now),
        _ => None,
    }
}

fn ending_by(before: Standing, now: &Snapshot) -> Option<Ending>
    ensures { result ≡ ending_by before now.now now.now.standing }
{
    match now.standing {
        Standing::Ready(Phase::Play(_)) => {
            if !is_waiting(before) {
                None
            } else if now.take {
                Some(Ending::Taken)
            } else {
                Some(Ending::RanOut)
            }
        }
        Standing::Ready(Phase::Close) => Some(Ending::RanOut),
        Standing::Awaiting(Phase::Halt) | Standing::Ready(Phase::HaltClose) => {
            if is_on_air_known(before) {
                Some(Ending::Stopped)
            } else {
                None
            }
        }
        _ => None,
    }
}

fn is_waiting(standing: Standing) -> bool
    ensures { result ≡ is_waiting standing }
{
    match standing {
        Standing::Ready(Phase::Wait(_)) | Standing::Awaiting(Phase::Wait(_)) => true,
        _ => false,
    }
}

// Whether no STOP had gone out, and no PLAY that wasn't answered.
fn is_on_air_known(standing: Standing) -> bool
    ensures { result ≡ is_on_air_known standing }
{
    match standing {
        Standing::Ready(Phase::Probe(_) | Phase::HaltClose) => false,
        Standing::Ready(_) => true,
        Standing::Awaiting(Phase::Play(_) | Phase::Probe(_) | Phase::Halt) => false,
        Standing::Awaiting(_) => true,
        Standing::Ended(_) => false,
    }
}

// A take that a stop has overtaken doesn't count.
fn ending_after(known: Option<Ending>, new: Option<Ending>) -> Option<Ending>
    ensures { result ≡ ending_after known new }
{
    match (known, new) {
        (None, _) => new,
        (Some(Ending::Taken), Some(Ending::Stopped)) => new,
        (Some(_), _) => known,
    }
}

// If memory is refused, fewer events are shown.
fn rows_round<S: Source>(
    alloc: Global,
    list: &S,
    event: u64,
    older: &[EventSeen],
    said: &[EventBefore],
    news: News,
) -> Vec<EventSeen>
    ensures round { AreRound (S.items list.now) event result.items }
    ensures rows { All (IsRow news older.now said.now) result.items }
{
    let mut rows = Vec::new(alloc);
    let next = usize::try_from(event).unwrap_or(usize::MAX);
    let first = next.saturating_sub(ROWS_BEFORE);
    let end = next.saturating_add(AFTER).min(list.len());
    for k in first..end {
        let row = news.row(older, said, number(k), list.at(k));
        match rows.push(row) {
            Ok(()) => {}
            Err(_) => return rows,
        }
    }
    rows
}

fn event_of<S: Source>(controller: &Controller<Rest<S>>) -> u64
    ensures { result ≡ event_of controller.now }
{
    number(controller.source().from()).saturating_add(number(controller.settled()))
}

fn number(count: usize) -> u64
    ensures { result ≡ count }
{
    count as u64
}

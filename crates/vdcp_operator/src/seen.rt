//! What the page of a run shows.
ghost use Rattle.std.specs.Prelude.{◌≡◌, IfOk, map};
ghost use Rattle.serde_json.specs.Data.{array, string};
ghost use Rattle.serde_json.specs.View.{items_of, view};
ghost use Rattle.vdcp_text.specs.Outcome.{outcome_text};
ghost use Rattle.vdcp_operator.specs.Seen.{alarm_data, can_skip, ending_data, ending_text, length_by, number_data, reason_data, reason_text, record_data, record_text, row_data, row_with, run_data, seen_data, stage_text, why_of};

use crate::ahead::Ahead;
use crate::left_out::LeftOut;
use serde_json::{Value, json};
use std::alloc::{AllocError, Global};
use vdcp_auto::{Outcome, Phase, Snapshot, Standing};
use vdcp_list::Table;
use vdcp_panel::View;
use vdcp_port::Catalogue;
use vdcp_text::{ItemText, OutcomeText};
use vdcp_value::{Item, Rate, Timecode};

/// What a journal says of an event.
#[derive(Clone, Copy, Debug, PartialEq, Eq)]
pub enum Record {
    Aired,
    /// It isn't reported, but may have aired.
    MayHaveAired,
    /// It neither aired nor may have aired.
    LeftOut,
}

/// Why an event was left out.
#[derive(Clone, Copy, Debug, PartialEq, Eq)]
pub enum Reason {
    Missing,
    Refused,
    /// It may have aired.
    Unsure,
    ByHand,
}

/// What a journal says of an event that a run no longer plays. Its number is from 0, times in milliseconds since 1970.
#[derive(Clone, Copy, Debug)]
pub struct EventBefore {
    pub number: u64,
    pub kept: Record,
    /// Why it was left out, if it was and that is known.
    pub why: Option<Reason>,
    /// When it was played, if it aired.
    pub at: Option<u64>,
    /// When its end was first seen.
    pub until: Option<u64>,
}

#[derive(Clone, Copy, Debug, PartialEq, Eq)]
pub enum Ending {
    /// By itself, before a command that ends a clip.
    RanOut,
    Taken,
    Stopped,
}

/// An event that a page shows. Its number is from 0, times in milliseconds since 1970.
#[derive(Clone, Copy, Debug)]
pub struct EventSeen {
    pub number: u64,
    pub item: Item,
    /// What the journal says, if the event comes before those that a run still plays.
    pub kept: Option<Record>,
    /// Why it was left out, by the journal.
    pub why: Option<Reason>,
    /// When it was seen to go to air, or was played by the journal.
    pub at: Option<u64>,
    /// When its end was first seen.
    pub until: Option<u64>,
    pub ending: Option<Ending>,
}

/// What a page shows of an operator's hand.
#[derive(Clone, Copy)]
pub struct HandSeen<'a> {
    /// How many commands went out.
    pub commands: u64,
    /// When the first event goes to air, if that is waited for.
    pub start: Option<u64>,
    /// Whether nothing new goes to air after what plays.
    pub holds: bool,
    pub left_out: &'a LeftOut,
}

/// What the command line says of a run. `server` is an address; `channel` and `journal` are empty if it names none.
#[derive(Drop)]
pub struct RunNames {
    pub channel: String,
    pub server: String,
    pub list: String,
    pub journal: String,
}

/// What a page shows of a run. Events have their numbers in the whole list; times are in milliseconds since 1970.
#[derive(Clone, Copy)]
pub struct RunSeen<'a> {
    pub page: &'static str,
    pub names: &'a RunNames,
    pub rate: Rate,
    pub clips: &'a Option<Table>,
    pub snapshot: Snapshot,
    pub is_over: bool,
    /// None if its controller hasn't ended.
    pub outcome: Option<Outcome>,
    /// The event with which the run began.
    pub from: u64,
    /// The first event that isn't reported: a call is about it.
    pub event: u64,
    /// How many the list has.
    pub events: u64,
    /// Those round `event`.
    pub rows: &'a [EventSeen],
    pub hand: HandSeen<'a>,
    /// What can still be left out.
    pub ahead: Ahead,
    /// Since when there is no connection, if there is none.
    pub down: Option<u64>,
    /// The last alarm, if there was one, and how many there were.
    pub alarm: &'a str,
    pub alarms: u64,
    pub clock: u64,
}

impl View for RunSeen<'_> {
    ghost use Rattle.vdcp_operator.specs.Seen.{about, page_bytes, state_bytes};

    ghost page_bytes = { page_bytes };

    ghost state_bytes = { state_bytes };

    ghost about = { about };

    fn page(&self) -> &'static str {
        self.page
    }

    #[tactic(auto, using(crate::proofs::Showing::seen_whole))]
    fn state(&self, alloc: Global) -> Result<String, AllocError> {
        self.value(alloc)?.to_string(alloc)
    }

    fn event(&self) -> Option<u64> {
        Some(self.event)
    }
}

impl RunSeen<'_> {
    fn value(&self, alloc: Global) -> Result<Value, AllocError>
        ensures { IfOk result (λ v. view v ≡ seen_data self.now) }
    {
        json!(in alloc; {
            "event": self.event,
            "events": self.events,
            "now": self.clock,
            "outcome": outcome_of(alloc, self.outcome)?,
            "rows": rows_of(alloc, self.rate, self.clips, self.hand.left_out, self.ahead, self.rows)?,
            "run": self.run(alloc)?,
            "stage": stage_text(self.snapshot.standing),
            "start": number_or_null(self.hand.start),
            "stop": self.snapshot.stop,
            "take": self.snapshot.take
        })
    }

    fn alarm_value(&self, alloc: Global) -> Result<Value, AllocError>
        ensures { IfOk result (λ v. view v ≡ alarm_data self.now) }
    {
        json!(in alloc; {
            "count": self.alarms,
            "words": self.alarm
        })
    }

    fn run(&self, alloc: Global) -> Result<Value, AllocError>
        ensures { IfOk result (λ v. view v ≡ run_data self.now) }
    {
        json!(in alloc; {
            "alarm": self.alarm_value(alloc)?,
            "channel": self.names.channel.as_str(),
            "commands": self.hand.commands,
            "down": number_or_null(self.down),
            "from": self.from,
            "holding": self.hand.holds,
            "journal": self.names.journal.as_str(),
            "list": self.names.list.as_str(),
            "over": self.is_over,
            "rate": self.rate.frames_per_second(),
            "server": self.names.server.as_str(),
            "stays": self.hand.left_out.stays(),
            "unanswered": self.snapshot.unanswered
        })
    }
}

fn outcome_of(alloc: Global, outcome: Option<Outcome>) -> Result<Value, AllocError>
    ensures { IfOk result (λ v. view v ≡ string (outcome_text outcome)) }
{
    let text = OutcomeText(outcome);
    let text = format!(in alloc; "{text}")?;
    Value::try_from_str(alloc, text.as_str())
}

fn stage_text(standing: Standing) -> &'static str
    ensures { result.now ≡ stage_text standing }
{
    let (Standing::Ready(phase) | Standing::Awaiting(phase)) = standing else {
        return "ended";
    };
    match phase {
        Phase::Open | Phase::Select | Phase::Seen => "opening",
        Phase::Exists(_) => "asking",
        Phase::Cue(_) => "cueing",
        Phase::Wait(_) => "waiting",
        Phase::Play(_) | Phase::Probe(_) => "starting",
        Phase::Check(_) => "checking",
        Phase::Drain => "ending",
        Phase::Close => "closing",
        Phase::Halt | Phase::HaltClose => "stopping",
    }
}

fn number_or_null(number: Option<u64>) -> Value
    ensures { view result ≡ number_data number }
{
    match number {
        Some(number) => Value::from(number),
        None => Value::Null,
    }
}

fn rows_of(
    alloc: Global,
    rate: Rate,
    clips: &Option<Table>,
    left_out: &LeftOut,
    ahead: Ahead,
    events: &[EventSeen],
) -> Result<Value, AllocError>
    ensures { IfOk result (λ v. view v ≡ array (items_of (map (row_data rate clips.now left_out.now ahead) events.now))) }
{
    let mut rows = Vec::new(alloc);
    for k in 0..events.len() {
        let row = row_of(alloc, rate, clips, left_out, ahead, &events[k])?;
        rows.push(row)?;
    }
    Ok(Value::Array(rows))
}

fn row_of(
    alloc: Global,
    rate: Rate,
    clips: &Option<Table>,
    left_out: &LeftOut,
    ahead: Ahead,
    event: &EventSeen,
) -> Result<Value, AllocError>
    ensures { IfOk result (λ v. view v ≡ row_data rate clips.now left_out.now ahead event.now) }
{
    let text = ItemText {
        rate,
        item: event.item,
    };
    let item = format!(in alloc; "{text}")?;
    let length = length_by(clips, event.item);
    let is_out = left_out.is_left_out(event.number as usize);
    let can_skip = can_skip(left_out, ahead, event.number as usize);
    row_with(alloc, item.as_str(), length, is_out, can_skip, event)
}

fn row_with(
    alloc: Global,
    item: &str,
    length: Option<u64>,
    is_out: bool,
    can_skip: bool,
    event: &EventSeen,
) -> Result<Value, AllocError>
    ensures { IfOk result (λ v. view v ≡ row_with item.now length is_out can_skip event.now) }
{
    json!(in alloc; {
        "at": number_or_null(event.at),
        "ending": ending_or_null(alloc, event.ending)?,
        "item": item,
        "kept": record_or_null(alloc, event.kept)?,
        "length": number_or_null(length),
        "number": event.number,
        "out": is_out,
        "skip": can_skip,
        "until": number_or_null(event.until),
        "why": reason_or_null(alloc, why_of(is_out, event.why))?
    })
}

#[tactic(auto, unfolding(crate::specs::Seen::can_skip))]
fn can_skip(left_out: &LeftOut, ahead: Ahead, event: usize) -> bool
    ensures { result ≡ can_skip left_out.now ahead event }
{
    left_out.skip_fault_at(ahead, event).is_none()
}

fn ending_or_null(alloc: Global, ending: Option<Ending>) -> Result<Value, AllocError>
    ensures { IfOk result (λ v. view v ≡ ending_data ending) }
{
    match ending {
        Some(ending) => Value::try_from_str(alloc, ending_text(ending)),
        None => Ok(Value::Null),
    }
}

fn ending_text(ending: Ending) -> &'static str
    ensures { result.now ≡ ending_text ending }
{
    match ending {
        Ending::RanOut => "ran out",
        Ending::Taken => "taken",
        Ending::Stopped => "stopped",
    }
}

fn record_or_null(alloc: Global, kept: Option<Record>) -> Result<Value, AllocError>
    ensures { IfOk result (λ v. view v ≡ record_data kept) }
{
    match kept {
        Some(kept) => Value::try_from_str(alloc, record_text(kept)),
        None => Ok(Value::Null),
    }
}

fn record_text(kept: Record) -> &'static str
    ensures { result.now ≡ record_text kept }
{
    match kept {
        Record::Aired => "aired",
        Record::MayHaveAired => "may have aired",
        Record::LeftOut => "left out",
    }
}

// What is left out now is so by hand.
fn why_of(is_out: bool, why: Option<Reason>) -> Option<Reason>
    ensures { result ≡ why_of is_out why }
{
    match (why, is_out) {
        (None, true) => Some(Reason::ByHand),
        (None, false) | (Some(_), _) => why,
    }
}

fn reason_or_null(alloc: Global, why: Option<Reason>) -> Result<Value, AllocError>
    ensures { IfOk result (λ v. view v ≡ reason_data why) }
{
    match why {
        Some(why) => Value::try_from_str(alloc, reason_text(why)),
        None => Ok(Value::Null),
    }
}

fn reason_text(why: Reason) -> &'static str
    ensures { result.now ≡ reason_text why }
{
    match why {
        Reason::Missing => "missing",
        Reason::Refused => "refused",
        Reason::Unsure => "unsure",
        Reason::ByHand => "by hand",
    }
}

// In milliseconds; None if no catalogue has the clip.
fn length_by(clips: &Option<Table>, item: Item) -> Option<u64>
    ensures { result ≡ length_by clips.now item }
{
    let clip = clips.as_ref()?.length(&item.id)?;
    let length = match item.part {
        None => clip,
        Some(part) => Timecode::from_bcd(clip.rate(), part.duration).ok()?,
    };
    Some(clip.rate().millis_of(length.frames()))
}

//! When each event that a run's rows report aired and ended.
ghost use Rattle.std.specs.Prelude.{◌≡◌, ◌≤◌, ◌<◌, ◌+◌, ◌^◌, ◌∷◌, ◌++◌, ◌||◌, [], List, None, OnOk, Some, length, if◌then◌else◌, slice_get, slice_set, ℕ};
ghost use Rattle.vdcp_auto.specs.Judging.{Knows};
ghost use Rattle.vdcp_auto.specs.Log.{hears};
ghost use Rattle.vdcp_auto.specs.Replies.{has_off, is_done, is_playing};
ghost use Rattle.vdcp_auto.specs.declared.exchange.Exchange.{Exchange};
ghost use Rattle.vdcp_auto.specs.declared.phase.Mode.{Mode};
ghost use Rattle.vdcp_journal.specs.Airings.{AreAirings, FoundSoFar, announces_after, asks_play, end_in, ended_by, is_play_row, shows_end, unsettled_event};
ghost use Rattle.vdcp_journal.specs.Resume.{ended_at, exchange_with, open_after};
ghost use Rattle.vdcp_journal.specs.Runs.{Run};
ghost use Rattle.vdcp_journal.specs.Times.{end_at, end_shown};
ghost use Rattle.vdcp_journal.specs.declared.row.Row.{Row};

use crate::moment::Moment;
use crate::row::{Note, Row};
use std::alloc::{AllocError, Global};
use vdcp_auto::laws::a_log_grows;
use vdcp_auto::{Exchange, Heard, Judge, Mode, Source};
use vdcp_list::Timed;
use vdcp_words::state::{CUE_DONE, PLAYING};
use vdcp_words::{Command, Reply};

/// When an event aired. A time that no clock gave is written as an empty field.
#[derive(Clone, Copy, Debug, PartialEq, Eq)]
pub struct Airing {
    /// When its PLAY went out; of several, the last.
    pub played: Moment,
    /// When it was known to have aired.
    pub known: Moment,
    /// The row that first shows its end: nothing plays any more, or the next PLAY or a STOP goes out.
    pub ended: Option<Row>,
}

impl Airing {
    /// If no row showed the end so far, this one does, if there is one.
    pub fn ended_by(self, row: Option<Row>) -> Self
        ensures { result ≡ ended_by row self }
    {
        Airing {
            ended: self.ended.or(row),
            ..self
        }
    }
}

impl Timed for Airing {
    ghost use Rattle.vdcp_journal.specs.Times.{clocked_text, end_text, ended_text};

    ghost played = { λ airing. clocked_text airing.played };

    ghost known = { λ airing. clocked_text airing.known };

    ghost ended = { λ airing. ended_text airing.ended };

    ghost end = { λ airing. end_text airing.ended };

    fn played(&self) -> &[u8] {
        self.played.clocked()
    }

    fn known(&self) -> &[u8] {
        self.known.clocked()
    }

    fn ended(&self) -> &[u8] {
        match &self.ended {
            Some(row) => row.time.clocked(),
            None => &[],
        }
    }

    fn end(&self) -> &[u8] {
        match &self.ended {
            Some(row) => end_at(row.time.clocked(), &row.note).as_bytes(),
            None => b"not seen",
        }
    }
}

fn end_at<'a>(time: &[u8], note: &Note) -> &'a str
    ensures { result.now ≡ end_at time.now note.now }
{
    match time {
        [] => "not seen",
        [_, ..] => end_shown(note),
    }
}

fn end_shown<'a>(note: &Note) -> &'a str
    ensures { result.now ≡ end_shown note.now }
{
    match note {
        Note::Heard(_) => "ran out",
        Note::Sent(Command::Play) => "cut by a take",
        Note::Sent(Command::Stop) => "stopped",
        _ => "not seen",
    }
}

#[derive(Debug, Drop)]
pub struct Airings {
    /// One of each reported event, in order.
    pub airings: Vec<Airing>,
    /// The event that may have aired besides: its PLAY went out and nothing has settled it since, or a state announces its
    /// PLAY, which may have gone out without a row unless the operator left the run.
    pub unsettled: Option<usize>,
    /// The row that first shows an end of what is on air, also of what was before the run.
    pub first_end: Option<Row>,
}

/// Finds when the events of a run aired, from its rows one by one.
///
/// What a clause says of rows holds of all that were added since `new`.
#[derive(Drop)]
pub struct AiringsSoFar<S: Source> {
    judge: Judge<S>,
    asked: Option<Command>,
    // Whether the last rows announce a PLAY.
    announced: bool,
    played: Option<Moment>,
    first_end: Option<Row>,
    airings: Vec<Airing>,
}

impl<S: Source + Drop> AiringsSoFar<S> {
    /// Begins with no rows. Any list will do as `source`: what aired is seen in the log alone.
    pub fn new(alloc: Global, source: S, mode: Mode) -> Self
        ensures { FoundSoFar S.items mode [] result }
    {
        AiringsSoFar {
            judge: Judge::new(source, mode),
            asked: None,
            announced: false,
            played: None,
            first_end: None,
            airings: Vec::new(alloc),
        }
    }

    /// Takes the next row, after fewer than 2^64 - 1. If memory is refused it is of no more use.
    pub fn add(&mut self, row: &Row) -> Result<(), AllocError>
        ensures { (mode : Mode) (rows : List Row) → FoundSoFar S.items mode rows self.old → length rows + 1 < 2 ^ 64 →
            OnOk result (FoundSoFar S.items mode (rows ++ row.now ∷ []) self.new) }
    {
        a_log_grows();
        follow(&mut self.judge, &mut self.asked, &row.note);
        let end = end_in(row);
        note_end(&mut self.airings, end);
        let settled = self.judge.settled();
        add_airing(&mut self.airings, settled, self.played, row.time, end)?;
        self.first_end = self.first_end.or(end);
        self.played = last_play(self.played, row);
        self.announced = announces_after(self.announced, &row.note);
        Ok(())
    }

    /// `left` says whether the operator left the run: then no PLAY went out without a row.
    #[tactic(auto, using(crate::proofs::AiringSteps::unsettled_is))]
    pub fn finish(self, left: bool) -> Airings
        ensures are { (mode : Mode) (rows : List Row) → FoundSoFar S.items mode rows self →
            AreAirings mode rows result.airings.items }
        ensures unsettled { (mode : Mode) (run : Run) → FoundSoFar S.items mode run.rows self → run.left ≡ left →
            result.unsettled ≡ unsettled_event mode run }
        ensures first_end { (mode : Mode) (rows : List Row) → FoundSoFar S.items mode rows self →
            result.first_end ≡ end_in rows }
    {
        a_log_grows();
        let unsettled = unsettled_event(&self.judge, self.asked, self.announced && !left);
        let AiringsSoFar {
            airings,
            first_end,
            ..
        } = self;
        Airings {
            airings,
            unsettled,
            first_end,
        }
    }
}

fn follow<S: Source>(judge: &mut Judge<S>, asked: &mut Option<Command>, note: &Note)
    ensures mode { judge.new.mode ≡ judge.old.mode }
    ensures asked { asked.new ≡ open_after asked.old note.now }
    ensures knows { (log : List Exchange) → length log + length (ended_at asked.old note.now []) < 2 ^ 64 →
        Knows S.items log judge.old → Knows S.items (log ++ ended_at asked.old note.now []) judge.new }
{
    match note {
        Note::Sent(command) => *asked = Some(*command),
        Note::Heard(heard) => end(judge, asked, Some(*heard)),
        Note::Silence => end(judge, asked, None),
        _ => {}
    }
}

fn end<S: Source>(judge: &mut Judge<S>, asked: &mut Option<Command>, heard: Option<Heard>)
    ensures mode { judge.new.mode ≡ judge.old.mode }
    ensures asked { asked.new ≡ None }
    ensures knows { (log : List Exchange) → length log + length (exchange_with heard asked.old []) < 2 ^ 64 →
        Knows S.items log judge.old → Knows S.items (log ++ exchange_with heard asked.old []) judge.new }
{
    if let Some(command) = *asked {
        judge.add(&Exchange { command, heard });
    }
    *asked = None;
}

// If more events are settled than have an airing, the row of this time has settled one, which `end` says if it shows its end.
fn add_airing(
    airings: &mut Vec<Airing>,
    settled: usize,
    played: Option<Moment>,
    known: Moment,
    end: Option<Row>,
) -> Result<(), AllocError>
    ensures same { OnOk result (settled ≤ length airings.old.items → airings.new.items ≡ airings.old.items) }
    ensures more { OnOk result (length airings.old.items < settled → (play : Moment) → played ≡ Some play →
        airings.new.items ≡ airings.old.items
        ++ record { played = play; known = known; ended = end } ∷ []) }
{
    match played {
        Some(played) if airings.len() < settled => {
            airings.push(Airing {
                played,
                known,
                ended: end,
            })?;
        }
        _ => {}
    }
    Ok(())
}

fn note_end(airings: &mut Vec<Airing>, end: Option<Row>)
    ensures last { (k : ℕ) (last : Airing) → length airings.old.items ≡ k + 1 → slice_get airings.old.items k ≡ Some last →
        airings.new.items ≡ slice_set airings.old.items k (ended_by end last) }
    ensures none { airings.old.items ≡ [] → airings.new.items ≡ [] }
{
    if let Some(place) = airings.len().checked_sub(1) {
        airings[place] = airings[place].ended_by(end);
    }
}

fn end_in(row: &Row) -> Option<Row>
    ensures { result ≡ end_in (row.now ∷ []) }
{
    if shows_end(&row.note) {
        Some(*row)
    } else {
        None
    }
}

fn shows_end(note: &Note) -> bool
    ensures { result ≡ shows_end note.now }
{
    match note {
        Note::Sent(command) => matches!(command, Command::Play | Command::Stop),
        Note::Heard(heard) => hears_idle(heard),
        _ => false,
    }
}

fn last_play(before: Option<Moment>, row: &Row) -> Option<Moment>
    ensures { result ≡ (if is_play_row row.now then Some row.now.time else before) }
{
    match row.note {
        Note::Sent(Command::Play) => Some(row.time),
        _ => before,
    }
}

// `before` says whether the rows before this one announce a PLAY.
fn announces_after(before: bool, note: &Note) -> bool
    ensures { result ≡ announces_after before note.now }
{
    match note {
        Note::Sent(command) => matches!(command, Command::Status(_)) && before,
        Note::Heard(heard) => hears_done(heard) && (hears_playing(heard) || before),
        _ => false,
    }
}

fn hears_done(heard: &Heard) -> bool
    ensures { result ≡ hears is_done (Some heard.now) }
{
    match heard {
        Heard::Reply(Reply::State(_, Some(state))) => *state & CUE_DONE != 0,
        _ => false,
    }
}

fn hears_playing(heard: &Heard) -> bool
    ensures { result ≡ hears is_playing (Some heard.now) }
{
    match heard {
        Heard::Reply(Reply::State(_, Some(state))) => *state & PLAYING != 0,
        _ => false,
    }
}

fn hears_idle(heard: &Heard) -> bool
    ensures { result ≡ hears (has_off 4) (Some heard.now) }
{
    match heard {
        Heard::Reply(Reply::State(_, Some(state))) => *state & PLAYING == 0,
        _ => false,
    }
}

fn unsettled_event<S: Source>(
    judge: &Judge<S>,
    asked: Option<Command>,
    announced: bool,
) -> Option<usize>
    ensures { result ≡ (if (asks_play asked || judge.now.may_have_aired) || announced
        then Some judge.now.settled else None) }
{
    if asks_play(asked) || judge.may_have_aired() || announced {
        Some(judge.settled())
    } else {
        None
    }
}

fn asks_play(asked: Option<Command>) -> bool
    ensures { result ≡ asks_play asked }
{
    matches!(asked, Some(Command::Play))
}

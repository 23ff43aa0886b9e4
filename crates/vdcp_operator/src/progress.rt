//! The progress line.
use arrayvec::ArrayString;
use std::fmt::{self, Write};
use std::io;
use std::rt::Clock;
use std::time::{Duration, Instant};
use vdcp_auto::{Controller, Heard, Phase, Source, Standing};
use vdcp_list::Rest;
use vdcp_log::write_at_once;
use vdcp_value::{ClipId, Item, Rate, Timecode};
use vdcp_words::Command;

// In milliseconds, if nothing changed.
const REDRAWN_AFTER: u128 = 100;

// How many columns a line has at most, so that no terminal breaks it in two.
const MOST_COLUMNS: usize = 79;

// In milliseconds: an answer that takes longer, beside the silences round it, is said to be missing.
const PATIENCE: u64 = 1_000;

const ERASE: &'static str = "\r\x1b[K";

/// A terminal's line: whether the list is held; the item on air, by the answers, and for how long; the next event and the
/// command sent; a long time without an answer; how many events of the whole list are reported; the time so far. Without a
/// line: for how long, and what was last on air. If nothing changes it is drawn ten times a second at most.
#[derive(Drop)]
pub struct Progress<'a, R: Clock, V: io::Write> {
    clock: &'a R,
    patience: Duration,
    // By it the lengths of parts are known.
    rate: Option<Rate>,
    holds: bool,
    // None once it or the clock has failed, or the line is cleared.
    terminal: Option<V>,
    work: Work,
    // When the first command went out that wasn't answered.
    asked: Option<Instant>,
    // Since when there is no line.
    down: Option<Instant>,
    // How many events are reported, and since when; None if they were when the run began.
    reported: Option<(usize, Option<Instant>)>,
    begun: Option<Instant>,
    drawn: Option<(Glance, Instant)>,
}

#[derive(Clone, Copy, PartialEq, Eq)]
enum Work {
    /// The port is asked whether it is empty.
    Questions,
    List {
        /// The last event that is reported, if it is on air.
        on_air: Option<Airing>,
        event: Option<ClipId>,
        command: Command,
        /// How many events are reported, counted from the whole list's first.
        reported: usize,
        /// Of the whole list.
        events: usize,
    },
}

#[derive(Clone, Copy, PartialEq, Eq)]
struct Airing {
    id: ClipId,
    /// Of its part, in seconds, if it has one.
    length: Option<u64>,
}

/// What is shown, but for the time.
#[derive(Clone, Copy, PartialEq, Eq)]
struct Glance {
    work: Work,
    holds: bool,
    /// For how many seconds the last event has been reported.
    reported: Option<u64>,
    /// For how many seconds, if that is long.
    unanswered: Option<u64>,
    /// For how many seconds there has been no line.
    down: Option<u64>,
}

impl<'a, R: Clock, V: io::Write + Drop> Progress<'a, R, V> {
    /// `silence` is in milliseconds.
    pub fn new(clock: &'a R, terminal: V, silence: u32) -> Self {
        Progress {
            clock,
            patience: Duration::from_millis(PATIENCE + 2 * u64::from(silence)),
            terminal: Some(terminal),
            rate: None,
            holds: false,
            work: Work::Questions,
            asked: None,
            down: None,
            reported: None,
            begun: None,
            drawn: None,
        }
    }

    pub fn set_rate(&mut self, rate: Rate) {
        self.rate = Some(rate);
    }

    pub fn set_holds(&mut self, holds: bool) {
        self.holds = holds;
    }

    pub fn note_sent(&mut self) {
        if self.asked.is_none() {
            self.asked = Instant::now(self.clock).ok();
        }
    }

    pub fn note_end(&mut self, heard: Option<Heard>) {
        if heard.is_some() {
            self.asked = None;
        }
    }

    /// Draws the line, if it is time to. Until a controller awaits an answer the line says that the port is asked.
    pub fn see<S: Source>(&mut self, controller: &Controller<Rest<S>>) {
        if let Some(command) = controller.awaited() {
            let reported = controller.source().from() + controller.settled();
            self.note_reported(reported);
            self.work = Work::of(controller, command, reported, self.rate);
        }
        if self.show().is_err() {
            self.terminal = None;
        }
    }

    /// There is no line, from now on if there was one: the progress line says so, with what was last seen on air.
    pub fn see_down(&mut self) {
        self.asked = None;
        self.down = self.down.or(Instant::now(self.clock).ok());
        if self.show().is_err() {
            self.terminal = None;
        }
    }

    pub fn note_up(&mut self) {
        self.down = None;
    }

    /// Erases the line; nothing more is drawn.
    pub fn clear(&mut self) {
        let Some(mut terminal) = self.terminal.take() else {
            return;
        };
        if self.drawn.is_some() {
            let _ = write_at_once(&mut terminal, ERASE.as_bytes());
            let _ = terminal.flush();
        }
    }

    fn show(&mut self) -> io::Result<()> {
        let since = match self.reported {
            Some((_, since)) => since,
            None => None,
        };
        let stands = self.drawn;
        let Some(terminal) = &mut self.terminal else {
            return Ok(());
        };
        let now = Instant::now(self.clock)?;
        let glance = Glance {
            work: self.work,
            holds: self.holds,
            reported: seconds_since(since, now, Duration::ZERO),
            unanswered: seconds_since(self.asked, now, self.patience),
            down: seconds_since(self.down, now, Duration::ZERO),
        };
        if let Some((last, drawn)) = stands
            && last == glance
            && now.duration_since(drawn).as_millis() < REDRAWN_AFTER
        {
            return Ok(());
        }
        let begun = self.begun.unwrap_or(now);
        draw(&glance, now.duration_since(begun).as_secs(), terminal)?;
        self.begun = Some(begun);
        self.drawn = Some((glance, now));
        Ok(())
    }

    fn note_reported(&mut self, reported: usize) {
        match self.reported {
            None => self.reported = Some((reported, None)),
            Some((last, _)) if last == reported => {}
            Some(_) => self.reported = Some((reported, Instant::now(self.clock).ok())),
        }
    }
}

fn seconds_since(then: Option<Instant>, now: Instant, least: Duration) -> Option<u64> {
    let passed = now.duration_since(then?);
    if passed < least {
        return None;
    }
    Some(passed.as_secs())
}

// The line is written at once, so that it doesn't flicker. What the terminal doesn't take then is never drawn.
fn draw<V: io::Write>(glance: &Glance, seconds: u64, terminal: &mut V) -> io::Result<()> {
    let mut line = ArrayString::<256>::new();
    let _ = write!(line, "{ERASE}{glance}, ");
    let _ = write_time(seconds, &mut line);
    let bytes = line.as_bytes();
    let end = bytes.len().min(ERASE.len() + MOST_COLUMNS);
    write_at_once(terminal, &bytes[..end])?;
    terminal.flush()
}

impl Work {
    fn of<S: Source>(
        controller: &Controller<Rest<S>>,
        command: Command,
        reported: usize,
        rate: Option<Rate>,
    ) -> Work {
        let rest = controller.source();
        let settled = controller.settled();
        let mut on_air = None;
        if settled > 0 && shows_clip(controller.snapshot().standing) {
            let item = rest.at(settled - 1);
            on_air = Some(Airing {
                id: item.id,
                length: length_of(item, rate),
            });
        }
        let mut event = None;
        if settled < rest.len() {
            event = Some(rest.at(settled).id);
        }
        Work::List {
            on_air,
            event,
            command,
            reported,
            events: rest.whole().len(),
        }
    }
}

fn length_of(item: Item, rate: Option<Rate>) -> Option<u64> {
    let rate = rate?;
    let length = Timecode::from_bcd(rate, item.part?.duration).ok()?;
    Some(rate.millis_of(length.frames()) / 1_000)
}

// Whether the last clip that is reported is on air: no PLAY, STOP or CLOSE has followed it.
fn shows_clip(standing: Standing) -> bool {
    let (Standing::Ready(phase) | Standing::Awaiting(phase)) = standing else {
        return false;
    };
    match phase {
        Phase::Exists(_) | Phase::Cue(_) | Phase::Wait(_) | Phase::Check(_) | Phase::Drain => true,
        Phase::Open | Phase::Select | Phase::Seen | Phase::Play(_) | Phase::Probe(_) => false,
        Phase::Close | Phase::Halt | Phase::HaltClose => false,
    }
}

impl fmt::Display for Glance {
    fn fmt<W: fmt::Write>(&self, f: &mut fmt::Formatter<W>) -> fmt::Result {
        if let Some(seconds) = self.down {
            return self.write_down(seconds, f);
        }
        if self.holds {
            write!(f, "holding; ")?;
        }
        match self.work {
            Work::Questions => {
                write!(f, "is the port empty?")?;
                write_unanswered(self.unanswered, f)
            }
            Work::List {
                on_air,
                event,
                command,
                reported,
                events,
            } => {
                if let Some(airing) = on_air {
                    self.write_on_air(reported.saturating_sub(1), airing.id, f)?;
                }
                if let Some(id) = event {
                    let word = if on_air.is_some() { "next" } else { "event" };
                    write_event(word, reported, id, f)?;
                    write!(f, ": ")?;
                }
                write_command(command, f)?;
                write_unanswered(self.unanswered, f)?;
                write!(f, ", {reported} of {events} reported")
            }
        }
    }
}

impl Glance {
    fn write_on_air<W: fmt::Write>(&self, number: usize, id: ClipId, f: &mut W) -> fmt::Result {
        write_event("on air", number, id, f)?;
        if let Some(seconds) = self.reported {
            write!(f, " ")?;
            write_time(seconds, f)?;
        }
        write!(f, "; ")
    }

    // (it fits, with numbers of four digits)
    fn write_down<W: fmt::Write>(&self, seconds: u64, f: &mut W) -> fmt::Result {
        write!(f, "no line for ")?;
        write_time(seconds, f)?;
        write!(f, ", tried each second")?;
        let Work::List {
            on_air: Some(airing),
            reported,
            ..
        } = self.work
        else {
            return Ok(());
        };
        write!(f, "; ")?;
        write_event("last on air", reported.saturating_sub(1), airing.id, f)?;
        self.write_left(airing.length, f)
    }

    // How long it still plays by its length; without one, for how long it plays.
    fn write_left<W: fmt::Write>(&self, length: Option<u64>, f: &mut W) -> fmt::Result {
        let Some(seconds) = self.reported else {
            return Ok(());
        };
        match length {
            None => {
                write!(f, " for ")?;
                write_time(seconds, f)
            }
            Some(length) if length <= seconds => write!(f, ", over"),
            Some(length) => {
                write!(f, ", ")?;
                write_time(length - seconds, f)?;
                write!(f, " left")
            }
        }
    }
}

fn write_command<W: fmt::Write>(command: Command, f: &mut W) -> fmt::Result {
    let mut text = ArrayString::<64>::new();
    command.show(&mut text);
    let command = text.as_str();
    write!(f, "{command}")
}

fn write_event<W: fmt::Write>(word: &str, number: usize, id: ClipId, f: &mut W) -> fmt::Result {
    let mut text = ArrayString::<18>::new();
    id.show(&mut text);
    let id = text.as_str();
    write!(f, "{word} {number} {id}")
}

fn write_unanswered<W: fmt::Write>(seconds: Option<u64>, f: &mut W) -> fmt::Result {
    if let Some(seconds) = seconds {
        write!(f, " (no answer for {seconds} s)")?;
    }
    Ok(())
}

fn write_time<W: fmt::Write>(seconds: u64, f: &mut W) -> fmt::Result {
    let hours = seconds / 3600;
    let minutes = seconds / 60 % 60;
    let seconds = seconds % 60;
    write!(f, "{hours}:{minutes:02}:{seconds:02}")
}

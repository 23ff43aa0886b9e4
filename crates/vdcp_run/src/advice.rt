//! What an operator is told of a run that didn't end as it was to: how it came to that, and what to type next.
ghost use Rattle.std.specs.Prelude.{◌≡◌, None, Some, ℕ};
ghost use Rattle.vdcp_run.specs.Advice.{advice_after, next_after, next_by, reason_of};
ghost use Rattle.vdcp_run.specs.declared.advice.Next.TheVariants as next;

use crate::lack::journal_left;
use crate::run_end::{LineEnd, RunEnd, Why};
use crate::settings::{RunJournal, RunSettings};
use std::fmt;
use vdcp_auto::{Mode, Outcome};
use vdcp_text::{Failure, ItemText, NameText};
use vdcp_value::{ClipId, Item, Rate};

#[derive(Clone, Copy)]
pub struct Advice<'a> {
    pub reason: Option<Reason>,
    pub next: Next<'a>,
}

/// Events have their numbers in the whole list.
#[derive(Clone, Copy)]
pub enum Reason {
    Missing(usize, ClipId),
    /// No PLAY went out for this event: the server refused its cue, or lost it again and again.
    RefusedCue(usize),
    /// NAK 01h came for a command of this event.
    Refused(usize),
    /// Another clip plays than that of this event.
    Foreign(usize),
    /// The port's state doesn't fit this event.
    Strange(usize),
    Denied,
    /// Nothing came over the line.
    Unheard,
    /// Nothing was heard of the server for as long as the run tries.
    Unreached,
    /// NAK 01h came for a question before the run went on.
    Unopened,
    /// The operator leaves out this event, and the run doesn't stay.
    LeftOut(usize),
    Lost,
}

#[derive(Clone, Copy)]
pub enum Next<'a> {
    /// Go on with this journal.
    Resume(&'a str),
    /// The same, in a run that stays.
    Stay(&'a str),
    /// Go on after this journal's last run, and open the port again.
    OpenAgain(&'a str),
    /// The same once the server has the clip of this event, or without the event.
    LoadedAgain(&'a str, usize),
    /// Look whether this event aired: if not, begin with it, else with the next one.
    From(usize),
    /// Begin with this event once the server has its clip, or with the next one.
    Loaded(usize),
}

impl<'a> Advice<'a> {
    /// None if the run ended as it was to.
    pub fn of_end(end: &RunEnd<'_>, settings: RunSettings<'a>) -> Option<Advice<'a>>
        ensures { result ≡ advice_after settings.entry end.now }
    {
        let journal = journal_left(end.unkept, settings.journal);
        match Next::behind(end, journal) {
            Some(next) => Some(Advice {
                reason: Reason::of(end, settings.mode),
                next,
            }),
            None => None,
        }
    }

    /// After a run that came to nothing.
    pub fn of_failure(failure: Failure<'_>) -> Option<Advice<'a>>
        ensures may_have_aired { (event : ℕ) → failure.entry ≡ Failure.MayHaveAired event
            → result ≡ Some (record { reason = None; next = next.From event }) }
    {
        match failure {
            Failure::MayHaveAired(event) => Some(Advice {
                reason: None,
                next: Next::From(event),
            }),
            _ => None,
        }
    }
}

impl<'a> Next<'a> {
    fn behind(end: &RunEnd<'_>, journal: Option<RunJournal<'a>>) -> Option<Next<'a>>
        ensures { result ≡ next_by end.now.line end.now.outcome journal.entry end.now.reported }
    {
        match (end.line, journal) {
            (LineEnd::LeftOut(_), Some(journal)) => Some(Next::Stay(journal.name())),
            (LineEnd::NotBegun(Why::Unopened), journal) => {
                Next::after(Some(Outcome::Denied), journal, end.reported)
            }
            (_, journal) => Next::after(end.told_outcome(), journal, end.reported),
        }
    }

    fn after(
        outcome: Option<Outcome>,
        journal: Option<RunJournal<'a>>,
        reported: usize,
    ) -> Option<Next<'a>>
        ensures { result ≡ next_after outcome journal.entry reported }
    {
        match (outcome, journal) {
            (Some(Outcome::Done | Outcome::Stopped), _) => None,
            (Some(Outcome::Missing(_)), None) => Some(Next::Loaded(reported)),
            (Some(Outcome::Missing(_)), Some(journal)) => {
                Some(Next::LoadedAgain(journal.name(), reported))
            }
            (_, None) => Some(Next::From(reported)),
            (Some(Outcome::Lost) | None, Some(journal)) => Some(Next::Resume(journal.name())),
            (Some(_), Some(journal)) => Some(Next::OpenAgain(journal.name())),
        }
    }
}

impl Reason {
    // (in confirm mode no command is refused)
    fn of(end: &RunEnd<'_>, mode: Mode) -> Option<Reason>
        ensures { result ≡ reason_of mode end.now }
    {
        match end.line {
            LineEnd::NotBegun(Why::GivenUp | Why::Unheard) => return Some(Reason::Unreached),
            LineEnd::NotBegun(Why::Unopened) => return Some(Reason::Unopened),
            LineEnd::LeftOut(_) => return Some(Reason::LeftOut(end.reported)),
            LineEnd::Ran(_) | LineEnd::Failed | LineEnd::Unkept | LineEnd::NotBegun(_) => {}
        }
        let loses_cues = end.signs.cueing || mode == Mode::Confirming;
        match end.told_outcome()? {
            Outcome::Missing(k) => match end.missing {
                Some(clip) => Some(Reason::Missing(k, clip)),
                None => None,
            },
            Outcome::Refused(k) if loses_cues => Some(Reason::RefusedCue(k)),
            Outcome::Refused(k) => Some(Reason::Refused(k)),
            Outcome::Foreign(k) => Some(Reason::Foreign(k)),
            Outcome::Strange(k) => Some(Reason::Strange(k)),
            Outcome::Denied => Some(Reason::Denied),
            Outcome::Lost if end.signs.heard => Some(Reason::Lost),
            Outcome::Lost => Some(Reason::Unheard),
            Outcome::Done | Outcome::Stopped => None,
        }
    }
}

impl fmt::Display for Advice<'_> {
    fn fmt<W: fmt::Write>(&self, f: &mut fmt::Formatter<W>) -> fmt::Result {
        if let Some(reason) = self.reason {
            write!(f, "{reason}\n  ")?;
        }
        self.next.fmt(f)
    }
}

impl fmt::Display for Reason {
    fn fmt<W: fmt::Write>(&self, f: &mut fmt::Formatter<W>) -> fmt::Result {
        match *self {
            Reason::Missing(event, id) => {
                let item = Item { id, part: None };
                let rate = Rate::F25;
                write!(
                    f,
                    "the server doesn't have {}, the clip of event {event}",
                    ItemText { rate, item }
                )
            }
            Reason::RefusedCue(event) => write!(
                f,
                "the server refused to cue event {event}, as a part that is too long for its clip: no PLAY was sent for it"
            ),
            Reason::Refused(event) => write!(f, "the server refused a command of event {event}"),
            Reason::Foreign(event) => write!(
                f,
                "another clip was on air than that of event {event}: does another automation drive the port?"
            ),
            Reason::Strange(event) => write!(
                f,
                "at event {event} the port's cue was lost, or is none of this list: was the server restarted, or does another automation drive the port?"
            ),
            Reason::Denied => write!(
                f,
                "the server doesn't open or select the port: is --port another, or does another automation have it?"
            ),
            Reason::Unheard => write!(
                f,
                "connected, but nothing answers: has the server stopped, or does another automation drive the port?"
            ),
            Reason::Unreached => write!(
                f,
                "nothing was heard of the server for as long as --stay says"
            ),
            Reason::Unopened => write!(
                f,
                "the port isn't open any more: was the server restarted?"
            ),
            Reason::LeftOut(event) => write!(f, "event {event} is left out by hand"),
            Reason::Lost => write!(
                f,
                "the last commands had no answer: has the server stopped, or was the line cut? What is on air isn't known until it answers again"
            ),
        }
    }
}

impl fmt::Display for Next<'_> {
    fn fmt<W: fmt::Write>(&self, f: &mut fmt::Formatter<W>) -> fmt::Result {
        match *self {
            Next::Resume(name) => write!(f, "go on with --resume {}", NameText(name)),
            Next::Stay(name) => write!(f, "go on with --resume {} --stay", NameText(name)),
            Next::OpenAgain(name) => {
                write!(f, "go on with --resume {} --open-again", NameText(name))
            }
            Next::LoadedAgain(name, event) => {
                let name = NameText(name);
                write!(
                    f,
                    "load it, and go on with --resume {name} --open-again; or without it with --resume {name} --from {}",
                    event.saturating_add(1)
                )
            }
            Next::From(event) => write!(
                f,
                "look at the server; --from {event} if event {event} did not air, else --from {}",
                event.saturating_add(1)
            ),
            Next::Loaded(event) => write!(
                f,
                "load it, and go on with --from {event}; or without it with --from {}",
                event.saturating_add(1)
            ),
        }
    }
}

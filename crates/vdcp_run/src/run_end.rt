//! How a run ended, what is printed of that, and its exit status.
ghost use Rattle.std.specs.Prelude.{◌≡◌, ◌≤◌, IfOk, IfSome};
ghost use Rattle.vdcp_drive.specs.declared.hooks.Kept.TheVariants as kept;
ghost use Rattle.vdcp_run.specs.Advice.{missing_in};
ghost use Rattle.vdcp_run.specs.Ends.{Reports, is_unplayable, line_end_of};
ghost use Rattle.vdcp_run.specs.Session.{no_signs, signs_after, signs_at_first};
ghost use Rattle.vdcp_run.specs.Run.{HasAsrun, asrun_failure, behind_left_out, has_lost_port, is_by_line, is_lost, is_refused, journal_behind, keeps_line, line_failure, run_status, told_outcome};

use crate::asrun::save_asrun;
use crate::in_list::{outcome_in_list, reported_in_list};
use crate::lack::Lack;
use crate::saved::SavedText;
use crate::settings::{RunJournal, RunSettings};
use crate::staying::later_of;
use std::io;
use std::rt::Files;
use vdcp_auto::{Controller, Heard, Mode, Outcome, Source};
use vdcp_drive::{BrokenOff, Call, Hearing, Ran};
use vdcp_list::Rest;
use vdcp_text::{Failure, OutcomeText};
use vdcp_value::ClipId;
use vdcp_words::{Command, Reply};

/// How the line ended.
#[derive(Clone, Copy, PartialEq, Eq)]
pub enum LineEnd {
    /// The controller has ended, the other end has closed the line, or all turns were made.
    Ran(Ran),
    Failed,
    /// The next command couldn't be kept in the journal, and wasn't sent.
    Unkept,
    /// The list wasn't begun, or not gone on with while a PLAY was held.
    NotBegun(Why),
    /// The operator leaves out the next event: the list goes on with this one.
    LeftOut(usize),
}

#[derive(Clone, Copy, PartialEq, Eq)]
pub enum Why {
    /// Something is cued at the port, or plays there.
    Occupied,
    /// The port didn't answer what it was asked.
    Unanswered,
    /// It answered that by NAK 01h: it isn't open.
    Unopened,
    /// The operator stopped before.
    Stopped,
    /// Nobody took a connection for as long as the run tries.
    GivenUp,
    /// One was taken, and nothing was heard for as long.
    Unheard,
}

impl LineEnd {
    /// `reported` is the next event, and `kept` the next one that isn't left out. A run is left before an event that is; or
    /// before a PLAY that is held, which ends it only if the journal can't be written. If it has ended since the next event
    /// can't be played, as `unplayed` says, this counts only if that isn't left out.
    pub fn of_run(
        ran: Result<Ran, BrokenOff>,
        unplayed: bool,
        reported: usize,
        kept: usize,
    ) -> LineEnd
        ensures { result ≡ line_end_of ran unplayed reported kept }
    {
        match ran {
            Ok(Ran::Ended) if unplayed && kept != reported => LineEnd::LeftOut(kept),
            Ok(ran) => LineEnd::Ran(ran),
            Err(BrokenOff::Device) => LineEnd::Failed,
            Err(BrokenOff::Unkept) => LineEnd::Unkept,
            Err(BrokenOff::Left) if kept == reported => LineEnd::Unkept,
            Err(BrokenOff::Left) => LineEnd::LeftOut(kept),
        }
    }

    /// The failure to report of the line itself: that of the journal is reported by its own, and a port that didn't answer
    /// by the outcome.
    pub fn failure(self) -> Option<Failure<'static>>
        ensures { result ≡ line_failure self }
    {
        match self {
            LineEnd::Ran(Ran::Closed) => Some(Failure::LineClosed),
            LineEnd::Ran(Ran::Spent) | LineEnd::LeftOut(_) => Some(Failure::Spent),
            LineEnd::Failed => Some(Failure::LineFailed),
            LineEnd::NotBegun(Why::Occupied) => Some(Failure::NotEmpty),
            LineEnd::NotBegun(Why::GivenUp) => Some(Failure::Connect),
            LineEnd::NotBegun(Why::Unheard) => Some(Failure::Unanswered),
            LineEnd::Ran(Ran::Ended) | LineEnd::Unkept => None,
            LineEnd::NotBegun(Why::Unanswered | Why::Unopened | Why::Stopped) => None,
        }
    }
}

/// What passed over a connection, as far as it says what an end means, and whether a run that stays goes on.
#[derive(Clone, Copy)]
pub struct Signs {
    /// Something was heard.
    pub heard: bool,
    /// Only such answers came as a port gives that isn't open.
    pub unopened: bool,
    /// The last command cued an event.
    pub cueing: bool,
    /// The operator stopped.
    pub stopped: bool,
    /// A command had no answer in time, or another message came, so that one may still come.
    pub unanswered: bool,
}

impl Signs {
    /// Before a run.
    pub fn at_first() -> Signs
        ensures { result ≡ signs_at_first }
    {
        Signs {
            heard: false,
            unopened: true,
            cueing: false,
            stopped: false,
            unanswered: false,
        }
    }

    /// Where no run took place.
    pub fn none() -> Signs
        ensures { result ≡ no_signs }
    {
        Signs {
            heard: false,
            unopened: false,
            cueing: false,
            stopped: false,
            unanswered: false,
        }
    }

    pub fn note_sent(&mut self, command: Command)
        ensures { self.new ≡ signs_after (kept.Sent command) self.old }
    {
        self.cueing = matches!(command, Command::PlayCue(_) | Command::CueData(..));
    }

    pub fn note_heard(&mut self, heard: Heard)
        ensures { self.new ≡ signs_after (kept.Heard heard) self.old }
    {
        self.heard = true;
        self.unopened = self.unopened
            && matches!(heard, Heard::Reply(Reply::Nak(_) | Reply::Present(_)));
        let is_answer = match heard {
            Heard::Reply(Reply::Nak(errors)) => errors == 0x01,
            Heard::Reply(_) => true,
            Heard::Other => false,
        };
        self.unanswered = !is_answer || self.unanswered;
    }

    pub fn note_silence(&mut self)
        ensures { self.new ≡ signs_after kept.Silence self.old }
    {
        self.unanswered = true;
    }

    pub fn note_call(&mut self, call: Call)
        ensures { self.new ≡ signs_after (kept.Called call) self.old }
    {
        self.stopped = self.stopped || matches!(call, Call::Stop);
    }

    /// Whether a controller that ended so did since the server doesn't have the clip of its next event, or, in plain mode,
    /// refused its cue.
    pub fn is_unplayable(self, mode: Mode, outcome: Option<Outcome>) -> bool
        ensures { result ≡ is_unplayable mode self outcome }
    {
        match (outcome, mode) {
            (Some(Outcome::Missing(_)), _) => true,
            (Some(Outcome::Refused(_)), Mode::Plain) => self.cueing,
            _ => false,
        }
    }
}

/// How a run ended. Events have their numbers in the whole list.
#[derive(Drop)]
pub struct RunEnd<'a> {
    /// The event that the controller began with.
    pub from: usize,
    /// None if the controller would go on.
    pub outcome: Option<Outcome>,
    /// The first event that isn't reported.
    pub reported: usize,
    pub line: LineEnd,
    pub signs: Signs,
    /// The clip that the server doesn't have, if that ended the controller.
    pub missing: Option<ClipId>,
    /// None if no as-run file is wanted.
    pub asrun: Option<Result<SavedText<'a>, Failure<'a>>>,
    pub unkept: Option<Lack<'a>>,
    /// How many turns were left then.
    pub left: u32,
    /// Why the run's last try came to nothing: this is the end of the one before.
    pub failed: Option<Failure<'a>>,
}

impl<'a> RunEnd<'a> {
    /// Tells `out` what came of the run, then `err` what failed, and gives the exit status.
    pub fn tell<W: io::Write, E: io::Write>(self, out: &mut W, err: &mut E) -> io::Result<u8>
        ensures { IfOk result (λ status. status ≡ run_status self.entry) }
    {
        let written = self.write_lines(out);
        // (also if `out` failed)
        self.write_faults(err)?;
        written?;
        Ok(self.status())
    }

    fn write_lines<W: io::Write>(&self, out: &mut W) -> io::Result<()> {
        let reported = self.reported;
        let outcome = OutcomeText(self.told_outcome());
        writeln!(out, "reported {reported}")?;
        writeln!(out, "outcome {outcome}")?;
        out.flush()
    }

    /// The printed outcome: Lost if the port didn't answer its questions, or isn't open any more, or nothing was heard for too
    /// long; Stopped if the operator stopped meanwhile.
    pub fn told_outcome(&self) -> Option<Outcome>
        ensures { result ≡ told_outcome self.now.line self.now.outcome }
    {
        match self.line {
            LineEnd::NotBegun(Why::Unanswered | Why::Unopened) => Some(Outcome::Lost),
            LineEnd::NotBegun(Why::GivenUp | Why::Unheard) => Some(Outcome::Lost),
            LineEnd::NotBegun(Why::Stopped) => Some(Outcome::Stopped),
            LineEnd::NotBegun(Why::Occupied) => self.outcome,
            LineEnd::Ran(_) | LineEnd::Failed | LineEnd::Unkept | LineEnd::LeftOut(_) =>
                self.outcome,
        }
    }

    /// Whether it ended by its line: this closed or failed, or the controller was lost.
    pub fn is_by_line(&self) -> bool
        ensures { result ≡ is_by_line self.now.line (told_outcome self.now.line self.now.outcome) }
    {
        match (self.line, self.told_outcome()) {
            (LineEnd::NotBegun(Why::GivenUp | Why::Unheard), _) => false,
            (_, Some(Outcome::Lost)) => true,
            (LineEnd::Ran(Ran::Closed) | LineEnd::Failed, None) => true,
            _ => false,
        }
    }

    /// Whether the run goes on no more from the rows of this journal: the server has lost the port since, or their controller
    /// was lost for good.
    pub fn has_lost_port(&self, journal: RunJournal<'_>) -> bool
        ensures { result ≡ has_lost_port journal.entry self.now }
    {
        match journal {
            RunJournal::New(_) | RunJournal::Again(_) | RunJournal::Left(_) => false,
            RunJournal::Older(_) => self.signs.unopened && (self.is_refused() || self.is_lost()),
        }
    }

    fn is_refused(&self) -> bool
        ensures { result ≡ is_refused self.now.line self.now.outcome }
    {
        match (self.line, self.outcome) {
            (LineEnd::NotBegun(Why::Unopened), _) => true,
            (LineEnd::Ran(Ran::Ended), Some(Outcome::Denied | Outcome::Refused(_))) => true,
            _ => false,
        }
    }

    fn is_lost(&self) -> bool
        ensures { result ≡ is_lost self.now.line self.now.signs self.now.outcome }
    {
        match (self.line, self.outcome) {
            (LineEnd::Ran(Ran::Ended), Some(Outcome::Lost)) => !self.signs.unanswered,
            _ => false,
        }
    }

    /// Whether the next try, of a list of so many events, uses the same line: if it leaves out an event, each command over the
    /// line was answered, and messages are heard at once. (One that is heard at silences may be a part of an answer, whose rest
    /// would be heard as the next one.)
    pub fn keeps_line(&self, count: usize, settings: RunSettings<'_>) -> bool
        ensures { result ≡ keeps_line settings.entry count self.now }
    {
        match (settings.hearing, later_of(self, count, settings)) {
            (Hearing::AtOnce, Some(later)) => !self.signs.unanswered && later.leaves_out(),
            (Hearing::AtOnce, None) | (Hearing::AtSilences, _) => false,
        }
    }

    /// If the next event is left out, by the operator or since it can't be played, the event with which the list of so many
    /// goes on.
    pub fn behind_left_out(&self, skips: bool, mode: Mode, count: usize) -> Option<usize>
        ensures behind { result ≡ behind_left_out skips mode count self.now }
        ensures listed { IfSome result (λ first. first ≤ count) }
    {
        let skips = skips && self.signs.is_unplayable(mode, self.outcome);
        match self.line {
            LineEnd::LeftOut(kept) if self.reported < kept && kept <= count => Some(kept),
            LineEnd::Ran(Ran::Ended) if skips && self.reported < count => Some(self.reported + 1),
            _ => None,
        }
    }

    /// The journal of a new run behind an event that is left out.
    pub fn journal_behind<'j>(&self, journal: RunJournal<'j>) -> RunJournal<'j>
        ensures { result ≡ journal_behind self.now.line journal.entry }
    {
        match self.line {
            LineEnd::LeftOut(_) => RunJournal::Left(journal.name()),
            _ => RunJournal::Again(journal.name()),
        }
    }

    fn unwritten(&self) -> Option<Failure<'a>>
        ensures { result ≡ asrun_failure self.now.asrun }
    {
        match &self.asrun {
            Some(Err(failure)) => Some(*failure),
            Some(Ok(_)) | None => None,
        }
    }

    fn write_faults<E: io::Write>(&self, err: &mut E) -> io::Result<()> {
        write_fault(self.unwritten(), err)?;
        write_lack(self.unkept, err)?;
        write_fault(self.failed.or(self.line.failure()), err)
    }

    fn status(&self) -> u8
        ensures { result ≡ run_status self.now }
    {
        if self.unwritten().is_some() || self.unkept.is_some() || self.failed.is_some() {
            return 3;
        }
        if self.line.failure().is_some() {
            return 3;
        }
        match self.told_outcome() {
            Some(Outcome::Done | Outcome::Stopped) => 0,
            Some(Outcome::Denied | Outcome::Missing(_) | Outcome::Refused(_)) => 1,
            Some(Outcome::Foreign(_) | Outcome::Strange(_)) => 1,
            Some(Outcome::Lost) | None => 3,
        }
    }
}

fn write_fault<E: io::Write>(failure: Option<Failure<'_>>, err: &mut E) -> io::Result<()> {
    match failure {
        Some(failure) => writeln!(err, "vdcp: {failure}"),
        None => Ok(()),
    }
}

fn write_lack<E: io::Write>(unkept: Option<Lack<'_>>, err: &mut E) -> io::Result<()> {
    match unkept {
        Some(lack) => {
            writeln!(err, "vdcp: {lack}")?;
            writeln!(
                err,
                "  the number reported holds: asrun may list one event less, and say that it may have aired"
            )
        }
        None => Ok(()),
    }
}

fn missing_clip<S: Source>(source: &S, outcome: Option<Outcome>) -> Option<ClipId>
    ensures { result ≡ missing_in (S.items source.now) outcome }
{
    match outcome {
        Some(Outcome::Missing(k)) if k < source.len() => Some(source.at(k).id),
        _ => None,
    }
}

/// Makes the as-run file, unless the run tries again, and gives its end.
pub fn ended<'a, R: Files + AllocGlobal, S: Source>(
    rt: &R,
    controller: &Controller<Rest<S>>,
    line: LineEnd,
    signs: Signs,
    unkept: Option<Lack<'a>>,
    left: u32,
    settings: RunSettings<'a>,
) -> RunEnd<'a>
    ensures reports { Reports controller.now.source.from controller.now.state result }
    ensures line { result.line ≡ line }
    ensures signs { result.signs ≡ signs }
    ensures asrun { HasAsrun settings.entry (S.items controller.now.source.source) result }
    ensures kept { result.unkept ≡ unkept.entry }
    ensures left { result.left ≡ left }
{
    let from = controller.source().from();
    let end = RunEnd {
        from,
        outcome: outcome_in_list(from, controller.outcome()),
        reported: reported_in_list(controller),
        line,
        signs,
        missing: missing_clip(controller.source(), controller.outcome()),
        asrun: None,
        unkept,
        left,
        failed: None,
    };
    match later_of(&end, controller.source().whole().len(), settings) {
        Some(_) => end,
        None => RunEnd {
            asrun: save_asrun(rt, controller, line, settings),
            ..end
        },
    }
}

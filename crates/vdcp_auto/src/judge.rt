//! The judge, and what it keeps in place of a log.
ghost use Rattle.std.specs.Prelude.{◌≡◌, ◌↔◌, ◌+◌, ◌<◌, ◌^◌, ◌||◌, ◌&&◌, not, if◌then◌else◌, false, IsTrue, List, [], ◌∷◌, ◌++◌, length};
ghost use Rattle.vdcp_auto.specs.Commands.{is_close_command, is_stop_command};
ghost use Rattle.vdcp_auto.specs.declared.exchange.Exchange.{Exchange};
ghost use Rattle.vdcp_auto.specs.Log.{is_done_status, is_play};
ghost use Rattle.vdcp_auto.specs.RuleBook.{CuesItemAt, IsTaken, May, MayPlay, Rule};
ghost use Rattle.vdcp_auto.specs.Settled.{has_open_play, may_have_aired, settled, settles};
ghost use Rattle.vdcp_auto.specs.Judging.{CueStands, Knows, is_done, stands};
ghost use Rattle.vdcp_auto.specs.Notes.{view_of};
ghost use Rattle.vdcp_auto.specs.Rulings.{IsRuling};

use crate::exchange::Exchange;
use crate::laws::a_log_grows;
use crate::meaning::{
    cue_of, is_acked, is_answered_play, is_close, is_cue, is_done_status, is_empty_status,
    is_grant, is_play, is_stop,
};
use crate::notes::Notes;
use crate::phase::Mode;
use crate::source::Source;
use std::marker::Model;
use vdcp_value::laws::an_id_is_its_bytes;
use vdcp_words::Command;

/// What the last cue of a log is good for.
#[derive(Clone, Copy, Debug, PartialEq, Eq)]
pub enum LastCue {
    /// None was sent, it isn't the next item's, it wasn't taken, or something has settled since.
    Void,
    /// It is the next item's, it was taken, and nothing has settled since.
    Stands,
    /// It stands, and a done status has come since with no PLAY after it.
    Done,
}

/// What the rule book says of an exchange.
#[derive(Clone, Copy, Debug, PartialEq, Eq)]
pub struct Ruling {
    pub is_allowed: bool,
    /// The exchange shows that one more event has aired.
    pub settles: bool,
}

/// Compares an automation's exchanges with the rule book, one after another, as `add` takes them. In a clause the log is
/// what this judge was given since it was made.
#[derive(Drop)]
pub struct Judge<S: Source> {
    source: S,
    mode: Mode,
    settled: usize,
    has_open_play: bool,
    may_have_aired: bool,
    stopped: bool,
    closed: bool,
    granted: bool,
    last_cue: LastCue,
}

impl<S: Source> Model for Judge<S> {
    ghost use Rattle.vdcp_auto.specs.Judging.{View};

    ghost Value = { View S };

    ghost view = { λ j. record {
      source = j.source;
      mode = j.mode;
      settled = j.settled;
      has_open_play = j.has_open_play;
      may_have_aired = j.may_have_aired;
      stopped = j.stopped;
      closed = j.closed;
      granted = j.granted;
      last_cue = j.last_cue;
    } };
}

impl<S: Source> Judge<S> {
    /// Makes a judge with an empty log, of an automation that plays this list in this mode.
    pub fn new(source: S, mode: Mode) -> Self
        ensures source { result.source ≡ source }
        ensures mode { result.mode ≡ mode }
        ensures knows { Knows S.items [] result }
    {
        Judge {
            source,
            mode,
            settled: 0,
            has_open_play: false,
            may_have_aired: false,
            stopped: false,
            closed: false,
            granted: false,
            last_cue: LastCue::Void,
        }
    }

    /// All that the judge knows, but for its list; `of_notes` makes the judge again.
    pub fn notes(&self) -> Notes
        ensures { self.now ≡ view_of self.now.source result }
    {
        Notes {
            mode: self.mode,
            settled: self.settled,
            has_open_play: self.has_open_play,
            may_have_aired: self.may_have_aired,
            stopped: self.stopped,
            closed: self.closed,
            granted: self.granted,
            last_cue: self.last_cue,
        }
    }

    pub fn of_notes(source: S, notes: &Notes) -> Self
        ensures { result ≡ view_of source notes.now }
    {
        Judge {
            source,
            mode: notes.mode,
            settled: notes.settled,
            has_open_play: notes.has_open_play,
            may_have_aired: notes.may_have_aired,
            stopped: notes.stopped,
            closed: notes.closed,
            granted: notes.granted,
            last_cue: notes.last_cue,
        }
    }

    pub fn settled(&self) -> usize
        ensures kept { result ≡ self.now.settled }
        ensures settled { (log : List Exchange) → Knows S.items log self.now → result ≡ settled self.now.mode log }
    {
        let Self { settled, .. } = self;
        *settled
    }

    /// Whether one event more may have aired: a PLAY is in the log, and nothing has settled since.
    pub fn may_have_aired(&self) -> bool
        ensures kept { result ≡ self.now.may_have_aired }
        ensures airing { (log : List Exchange) → Knows S.items log self.now →
            result ≡ may_have_aired self.now.mode log }
    {
        let Self { may_have_aired, .. } = self;
        *may_have_aired
    }

    /// Whether the rule book lets the command follow the log.
    pub fn allows(&self, command: &Command) -> bool
        ensures { (log : List Exchange) → Knows S.items log self.now →
            (IsTrue result ↔ May self.now.mode (S.items self.now.source) log command.now) }
    {
        self.keeps_rule(command) && self.goes_on(command)
    }

    pub fn rule_on(&self, exchange: &Exchange) -> Ruling
        ensures { (log : List Exchange) → Knows S.items log self.now →
            IsRuling self.now.mode (S.items self.now.source) log exchange.now result }
    {
        Ruling {
            is_allowed: self.allows(&exchange.command),
            settles: self.settles(exchange),
        }
    }

    /// Adds an exchange to the log, which has fewer than 2^64 - 1.
    pub fn add(&mut self, exchange: &Exchange)
        ensures source { self.new.source ≡ self.old.source }
        ensures mode { self.new.mode ≡ self.old.mode }
        ensures knows { (log : List Exchange) → length log + 1 < 2 ^ 64 → Knows S.items log self.old →
            Knows S.items (log ++ exchange.now ∷ []) self.new }
    {
        a_log_grows();
        let has_settled = self.settles(exchange);
        let last_cue = self.cue_after(exchange, has_settled);
        let has_open_play = self.has_open_play_after(exchange);
        let settled = self.settled_after(has_settled);
        let may_have_aired = self.may_have_aired_after(exchange, has_settled);
        self.last_cue = last_cue;
        self.has_open_play = has_open_play;
        self.may_have_aired = may_have_aired;
        self.settled = settled;
        self.stopped |= is_stop(exchange);
        self.closed |= is_close(exchange);
        self.granted |= is_grant(exchange);
    }

    fn keeps_rule(&self, command: &Command) -> bool
        ensures { (log : List Exchange) → Knows S.items log self.now →
            (IsTrue result ↔ Rule self.now.mode (S.items self.now.source) log command.now) }
    {
        match command {
            Command::PlayCue(_) | Command::CueData(_, _, _) => {
                !self.has_open_play && self.cues_next(command)
            }
            Command::Play => matches!(self.last_cue, LastCue::Done),
            Command::Select(_) => self.granted,
            Command::Close(_) => self.stopped || self.has_settled_all(),
            Command::Stop
            | Command::Open(_, _)
            | Command::Status(_)
            | Command::ActiveId
            | Command::IdRequest(_)
            | Command::IdSize(_) => true,
        }
    }

    fn goes_on(&self, command: &Command) -> bool
        ensures { result ≡ ((not self.now.stopped || (is_stop_command command.now || is_close_command command.now))
            && (not self.now.closed || is_close_command command.now)) }
    {
        match command {
            Command::Close(_) => true,
            Command::Stop => !self.closed,
            _ => !self.stopped && !self.closed,
        }
    }

    fn has_settled_all(&self) -> bool
        ensures { IsTrue result ↔
            ((self.now.settled ≡ length (S.items self.now.source)) × (self.now.has_open_play ≡ false)) }
    {
        self.settled == self.source.len() && !self.has_open_play
    }

    fn cues_next(&self, command: &Command) -> bool
        ensures { IsTrue result ↔ CuesItemAt (S.items self.now.source) self.now.settled command.now }
    {
        an_id_is_its_bytes();
        self.settled < self.source.len() && *command == cue_of(&self.source.at(self.settled))
    }

    fn settles(&self, exchange: &Exchange) -> bool
        ensures { (log : List Exchange) → Knows S.items log self.now →
            result ≡ settles self.now.mode log exchange.now }
    {
        is_empty_status(exchange) && self.has_open_play
            || matches!(self.mode, Mode::Plain) && is_play(exchange) && is_acked(exchange)
    }

    fn has_open_play_after(&self, exchange: &Exchange) -> bool
        ensures { (log : List Exchange) → Knows S.items log self.now →
            result ≡ has_open_play (log ++ exchange.now ∷ []) }
    {
        a_log_grows();
        if is_play(exchange) {
            !is_answered_play(exchange)
        } else {
            self.has_open_play && !is_stop(exchange) && !is_empty_status(exchange)
        }
    }

    fn may_have_aired_after(&self, exchange: &Exchange, has_settled: bool) -> bool
        ensures { result ≡ (not has_settled && (is_play exchange.now || self.now.may_have_aired)) }
    {
        !has_settled && (is_play(exchange) || self.may_have_aired)
    }

    fn cue_after(&self, exchange: &Exchange, has_settled: bool) -> LastCue
        ensures stands { (log : List Exchange) → Knows S.items log self.now →
            has_settled ≡ settles self.now.mode log exchange.now →
            (IsTrue (stands result)
            ↔ CueStands self.now.mode (S.items self.now.source) (log ++ exchange.now ∷ [])) }
        ensures done { (log : List Exchange) → Knows S.items log self.now →
            has_settled ≡ settles self.now.mode log exchange.now →
            (IsTrue (is_done result) ↔ MayPlay self.now.mode (S.items self.now.source) (log ++ exchange.now ∷ [])) }
    {
        a_log_grows();
        if has_settled {
            return LastCue::Void;
        }
        if is_cue(exchange) {
            return self.new_cue(exchange);
        }
        self.kept_cue(exchange)
    }

    fn kept_cue(&self, exchange: &Exchange) -> LastCue
        ensures stands { stands result ≡ stands self.now.last_cue }
        ensures done { is_done result ≡ (stands self.now.last_cue
            && (is_done_status exchange.now || is_done self.now.last_cue && not (is_play exchange.now))) }
    {
        match self.last_cue {
            LastCue::Void => LastCue::Void,
            LastCue::Stands | LastCue::Done if is_done_status(exchange) => LastCue::Done,
            LastCue::Done if !is_play(exchange) => LastCue::Done,
            LastCue::Stands | LastCue::Done => LastCue::Stands,
        }
    }

    /// The count stops at the largest number.
    fn settled_after(&self, has_settled: bool) -> usize
        ensures { self.now.settled + 1 < 2 ^ 64 →
            result ≡ (if has_settled then self.now.settled + 1 else self.now.settled) }
    {
        if has_settled {
            self.settled.saturating_add(1)
        } else {
            self.settled
        }
    }

    fn new_cue(&self, exchange: &Exchange) -> LastCue
        ensures stands { IsTrue (stands result)
            ↔ (CuesItemAt (S.items self.now.source) self.now.settled exchange.now.command
            × IsTaken self.now.mode exchange.now) }
        ensures waits { is_done result ≡ false }
    {
        let is_taken = matches!(self.mode, Mode::Confirming) || is_acked(exchange);
        if self.cues_next(&exchange.command) && is_taken {
            LastCue::Stands
        } else {
            LastCue::Void
        }
    }
}

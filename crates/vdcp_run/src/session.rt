//! One session: plays a list over a connection, and says what came of it.
ghost use Rattle.std.specs.Duration.{as_nanos};
ghost use Rattle.std.specs.Prelude.{◌≡◌, ◌≢◌, ◌⊎◌, ◌≤◌, ◌*◌, ◌^◌, ◌-◌, IfErr, IfOk, IfSome, IsSome, None, Option, Some, length};
ghost use Rattle.vdcp_auto.specs.Turn.{outcome_of};
ghost use Rattle.vdcp_operator.specs.OnList.{list_by, sparing_each};
ghost use Rattle.vdcp_run.specs.Ends.{Reports};
ghost use Rattle.vdcp_run.specs.Run.{HasAsrun, keeps_line, line_left};
ghost use Rattle.vdcp_run.specs.Asking.{over, start_of};
ghost use Rattle.vdcp_run.specs.Session.{EndsSo, HasSession, IsUnwired, IsWire, TriesOver, longest_answer, no_signs, signs_at_first};
ghost use Rattle.vdcp_wire.specs.Streams.{Streamed, failures_of};

use crate::before::events_before;
use crate::console::Console;
use crate::playing::Playing;
use crate::run_end::{LineEnd, RunEnd, Signs, Why};
use crate::settings::RunSettings;
use crate::staying::Pace;
use crate::stretch::Stretch;
use std::fs::File;
use std::io;
use std::net::{Net, SocketAddrV4};
use std::rt::{Clock, Files};
use std::time::Duration;
use vdcp_auto::{Controller, Source};
use vdcp_drive::{AtOnce, AtSilences, Hearing, Ran};
use vdcp_journal_file::{Disk, Recorder, Resumption};
use vdcp_list::Rest;
use vdcp_log::Logged;
use vdcp_text::Failure;
use vdcp_wire::{StreamWire, Wire};

/// What a run keeps from one try to the next.
#[derive(Drop)]
pub struct Session<'r, 'l, R: Net + Clock, I: io::Read, O: io::Write, V: io::Write> {
    pub console: Console<'r, 'l, R, I, O, V>,
    pub pace: Pace<'r, R>,
    /// The next try goes on over this line: each command over it was answered.
    pub line: Option<StreamWire<R::Stream, &'r R>>,
}

impl<
    'r,
    'l,
    R: Net + Files<File = File> + Clock + AllocGlobal,
    I: io::Read + Drop,
    O: io::Write + Drop,
    V: io::Write + Drop,
> Session<'r, 'l, R, I, O, V> {
    /// Plays the list, held and without what is left out if the journal says so, over the line that the try before left or a new
    /// connection, and hands the session back. If the
    /// controller has ended already nothing is sent: a run that stays goes on from there as if it had ended just now.
    /// The failure is `Connect` if nobody takes the connection in time and the run doesn't stay, and `NotEmpty` if the port
    /// is asked and isn't empty.
    pub fn play_at<'a, S: Source + Copy>(
        self,
        address: SocketAddrV4,
        begun: Resumption<'a, 'r, R, S>,
        settings: RunSettings<'a>,
    ) -> (Result<RunEnd<'a>, Failure<'a>>, Self)
        requires unit { settings.unit ≤ 15 }
        requires some { 1 ≤ settings.limit }
        requires works { IfSome self.line (λ wire. failures_of wire.connection ≡ 0) }
        ensures session { IfOk result.0 (λ end. (last : Option Streamed) × HasSession R.Stream (λ _. None) settings.entry
            (start_of S.items begun.entry.controller) (list_by (sparing_each settings.entry.wanted begun.entry.calls.items)
            self.entry.console.hand.list)
            begun.entry.recorder self.entry.line end last
            × (result.1.line ≡ line_left (keeps_line settings.entry (length (S.items begun.entry.controller.source.source)) end) last)) }
        ensures works { IfSome result.1.line (λ wire. failures_of wire.connection ≡ 0) }
        ensures asrun { IfOk result.0 (HasAsrun settings.entry (S.items begun.entry.controller.source.source)) }
        ensures refused { IfErr result.0 (λ failure. (failure ≡ Failure.Connect) ⊎ (failure ≡ Failure.NotEmpty)) }
        ensures none { IfErr result.0 (λ failure. result.1.line ≡ None) }
    {
        let Resumption {
            controller,
            recorder,
            runs,
            calls,
        } = begun;
        let Session {
            console,
            pace,
            line,
        } = self;
        let mut session = Session {
            console,
            pace,
            line: None,
        };
        // (what this process heeded before is among these)
        session
            .console
            .hand
            .set_list_calls(calls.as_slice(), settings.wanted);
        if controller.outcome().is_some() {
            let (end, session) = session.end_again(&controller, settings);
            return (Ok(end), session);
        }
        let said = events_before(session.console.rt.alloc(), runs.as_slice(), &controller);
        session.console.hand.set_before(said);
        let wire = match session.wire_after(line, address, &controller, settings) {
            Ok(wire) => wire,
            Err(line) => return session.end_unwired(&controller, line, settings),
        };
        let count = controller.source().whole().len();
        let Session {
            console,
            mut pace,
            ..
        } = session;
        let (end, console, wire) = console.play_over(recorder, controller, wire, settings);
        if end.signs.heard {
            pace.note_heard();
        }
        if end.line == LineEnd::NotBegun(Why::Occupied) {
            return (Err(Failure::NotEmpty), Session::unconnected(console, pace));
        }
        let line = line_left(end.keeps_line(count, settings), wire);
        let session = Session {
            console,
            pace,
            line,
        };
        (Ok(end), session)
    }

    pub fn unconnected(console: Console<'r, 'l, R, I, O, V>, pace: Pace<'r, R>) -> Self
        ensures { result.line ≡ None }
    {
        Session {
            console,
            pace,
            line: None,
        }
    }

    // That which the try before left, or else a new one. The error is how the line ended if there is none.
    fn wire_after<S: Source>(
        &mut self,
        before: Option<StreamWire<R::Stream, &'r R>>,
        address: SocketAddrV4,
        controller: &Controller<Rest<S>>,
        settings: RunSettings<'_>,
    ) -> Result<StreamWire<R::Stream, &'r R>, LineEnd>
        requires works { IfSome before (λ wire. failures_of wire.connection ≡ 0) }
        ensures wire { IfOk result (IsWire R.Stream settings.entry before.entry) }
        ensures works { IfOk result (λ wire. failures_of wire.connection ≡ 0) }
        ensures unwired { IfErr result (λ line. IfSome settings.entry.stay (λ stay. IsUnwired (Some stay) line)) }
        ensures list { self.new.console.hand.list ≡ self.old.console.hand.list }
    {
        if let Some(wire) = before {
            return Ok(wire);
        }
        let stream = match self.connect(address, controller, settings) {
            Ok(stream) => stream,
            Err(why) => return Err(LineEnd::NotBegun(why)),
        };
        let (silence, limit) = (silence_of(settings), limit_of(settings));
        match StreamWire::with_limit(stream, silence, limit, self.console.rt) {
            Ok(wire) => Ok(wire),
            Err(_) => Err(LineEnd::Failed),
        }
    }

    // Nobody took the connection, the operator stopped before, or the connection is no wire.
    fn end_unwired<'a, S: Source>(
        self,
        controller: &Controller<Rest<S>>,
        line: LineEnd,
        settings: RunSettings<'a>,
    ) -> (Result<RunEnd<'a>, Failure<'a>>, Self)
        requires { IfSome settings.stay (λ stay. IsUnwired (Some stay) line) }
        ensures ended { IfOk result.0 (λ end. IsUnwired settings.entry.stay line × EndsSo line no_signs settings.entry.listens end
            × Reports controller.now.source.from controller.now.state end) }
        ensures asrun { IfOk result.0 (HasAsrun settings.entry (S.items controller.now.source.source)) }
        ensures refused { IfErr result.0 (λ failure. failure ≡ Failure.Connect) }
        ensures line { result.1.line ≡ None }
    {
        if settings.stay.is_none() && line != LineEnd::Failed {
            return (
                Err(Failure::Connect),
                Session::unconnected(self.console, self.pace),
            );
        }
        let mut console = self.console;
        let left = settings.listens;
        let end = console.end(controller, line, Signs::none(), None, left, settings);
        (Ok(end), Session::unconnected(console, self.pace))
    }

    // The controller had ended before: that is the end of this try, too.
    fn end_again<'a, S: Source>(
        self,
        controller: &Controller<Rest<S>>,
        settings: RunSettings<'a>,
    ) -> (RunEnd<'a>, Self)
        requires { IsSome (outcome_of controller.now.state.stage) }
        ensures ended { IsSome (outcome_of controller.now.state.stage)
            × EndsSo (LineEnd.Ran Ran.Ended) signs_at_first settings.entry.listens result.0
            × Reports controller.now.source.from controller.now.state result.0 }
        ensures asrun { HasAsrun settings.entry (S.items controller.now.source.source) result.0 }
        ensures line { result.1.line ≡ None }
    {
        let mut console = self.console;
        let (line, signs, left) = (
            LineEnd::Ran(Ran::Ended),
            Signs::at_first(),
            settings.listens,
        );
        let end = console.end(controller, line, signs, None, left, settings);
        (end, Session::unconnected(console, self.pace))
    }
}

fn line_left<W: Drop>(keeps: bool, wire: W) -> Option<W>
    ensures { result ≡ line_left keeps (Some wire) }
{
    if keeps { Some(wire) } else { None }
}

fn silence_of(settings: RunSettings<'_>) -> Duration
    ensures { as_nanos result ≡ settings.entry.silence * 1000000 }
{
    Duration::from_millis(u64::from(settings.silence))
}

fn limit_of(settings: RunSettings<'_>) -> Duration
    ensures limit { as_nanos result ≡ longest_answer settings.entry }
    ensures short { as_nanos result ≤ 2 ^ 64 - 1 }
{
    let silences = match settings.hearing {
        Hearing::AtSilences => 16,
        Hearing::AtOnce => 1,
    };
    Duration::from_millis(u64::from(settings.silence) * silences)
}

impl<
    'r,
    'l,
    R: Files + Clock + AllocGlobal,
    I: io::Read + Drop,
    O: io::Write + Drop,
    V: io::Write + Drop,
> Console<'r, 'l, R, I, O, V> {
    fn play_over<'a, S: Source + Copy, F: Disk + Drop, W: Wire + Drop>(
        self,
        recorder: Option<Recorder<'a, 'r, R, F>>,
        controller: Controller<Rest<S>>,
        wire: W,
        settings: RunSettings<'a>,
    ) -> (RunEnd<'a>, Self, W)
        requires unit { settings.unit ≤ 15 }
        requires some { 1 ≤ settings.limit }
        requires works { W.failures wire ≡ 0 }
        ensures session { TriesOver W.does F.safe settings.entry (start_of S.items controller) self.entry.hand.list wire result.2
            recorder.entry result.0 }
        ensures works { result.0.line ≢ LineEnd.Failed → W.failures result.2 ≡ 0 }
        ensures asrun { HasAsrun settings.entry (S.items controller.source.source) result.0 }
    {
        let wire = Logged::new(wire, self.log, settings.hearing);
        let playing = Playing {
            recorder,
            console: self,
            left: settings.listens,
            signs: Signs::at_first(),
        };
        match settings.hearing {
            Hearing::AtSilences => {
                let stretch = Stretch {
                    playing,
                    controller,
                    ear: AtSilences::new(),
                    wire,
                };
                let (end, console, logged) = stretch.play_on(settings);
                (end, console, logged.wire)
            }
            Hearing::AtOnce => {
                let stretch = Stretch {
                    playing,
                    controller,
                    ear: AtOnce::new(),
                    wire,
                };
                let (end, console, logged) = stretch.play_on(settings);
                (end, console, logged.wire)
            }
        }
    }
}

//! One stretch of a session: what is to be asked is asked, and the list is played, up to a PLAY that the operator holds.
ghost use Rattle.std.specs.Prelude.{ℕ, Bool, ◌≡◌, ◌≢◌, ◌<◌, ◌≤◌, ◌+◌, Err, IfErr, IfNone, IfOk, IfSome, IsSomeAnd, IsTrue, None};
ghost use Rattle.vdcp_auto.specs.Turn.{is_awaiting};
ghost use Rattle.vdcp_drive.specs.declared.hooks.BrokenOff.{BrokenOff};
ghost use Rattle.vdcp_operator.specs.Hands.{holds_back};
ghost use Rattle.vdcp_operator.specs.LeftOut.{IsNextKept};
ghost use Rattle.vdcp_run.specs.Asking.{over, start_of};
ghost use Rattle.vdcp_run.specs.Ends.{Reports, is_unplayed, line_end_of};
ghost use Rattle.vdcp_run.specs.Run.{HasAsrun};
ghost use Rattle.vdcp_run.specs.declared.run_end.Signs.{Signs};
ghost use Rattle.vdcp_run.specs.Session.{EndsOpen, HasEnded, HasHeld, HasTried, IsClosed, IsWritten, Onset, Plays, AsksFirst, onset_of};

use crate::asking::Asked;
use crate::console::Console;
use crate::in_list::reported_in_list;
use crate::lack::Lack;
use crate::playing::Playing;
use crate::run_end::{LineEnd, RunEnd};
use crate::settings::RunSettings;
use std::io;
use std::rt::{Clock, Files};
use vdcp_auto::{Controller, Source};
use vdcp_drive::{BrokenOff, Driver, Ear, Hooks, Ran};
use vdcp_journal_file::{Disk, RecordFault, Recorder};
use vdcp_list::Rest;
use vdcp_wire::Wire;

/// What a session goes on with over its wire.
#[derive(Drop)]
pub struct Stretch<
    'a,
    'r,
    'l,
    R: Clock,
    F: Disk,
    I: io::Read,
    O: io::Write,
    V: io::Write,
    S: Source,
    E,
    W,
> {
    pub playing: Playing<'a, 'r, 'l, R, F, I, O, V>,
    pub controller: Controller<Rest<S>>,
    pub ear: E,
    pub wire: W,
}

impl<
    'a,
    'r,
    'l,
    R: Files + Clock + AllocGlobal,
    F: Disk + Drop,
    I: io::Read + Drop,
    O: io::Write + Drop,
    V: io::Write + Drop,
    S: Source + Copy,
    E: Ear + Drop,
    W: Wire + Drop,
> Stretch<'a, 'r, 'l, R, F, I, O, V, S, E, W> {
    /// Plays one stretch after another, as often as the operator holds a PLAY. Gives the wire back.
    pub fn play_on(self, settings: RunSettings<'a>) -> (RunEnd<'a>, Console<'r, 'l, R, I, O, V>, W)
        requires unit { settings.unit ≤ 15 }
        requires works { W.failures self.wire ≡ 0 }
        ensures session { HasTried W.does F.safe E.fold settings.entry (onset_of (start_of S.items self.entry.controller) self.entry.ear
            (over self.entry.wire self.entry.playing.recorder) self.entry.playing.left self.entry.playing.signs
            self.entry.playing.console.hand.list) result.2 result.0 }
        ensures works { result.0.line ≢ LineEnd.Failed → W.failures result.2 ≡ 0 }
        ensures asrun { HasAsrun settings.entry (S.items self.entry.controller.source.source) result.0 }
    {
        let mut stretch = self;
        'stretches: loop {
            match stretch.play(settings) {
                Ok(next) => stretch = next,
                Err(end) => return end,
            }
        }
    }

    // Gives the next stretch if a PLAY is held, and else how the run ended, with its wire.
    fn play(
        self,
        settings: RunSettings<'a>,
    ) -> Result<Self, (RunEnd<'a>, Console<'r, 'l, R, I, O, V>, W)>
        requires unit { settings.unit ≤ 15 }
        requires works { W.failures self.wire ≡ 0 }
        ensures held { IfOk result (λ next. (z : Onset E W F)
            → HasHeld W.does F.safe E.fold settings.entry z (onset_of (start_of S.items next.controller) next.ear
            (over next.wire next.playing.recorder) next.playing.left next.playing.signs next.playing.console.hand.list)
            → HasHeld W.does F.safe E.fold settings.entry z (onset_of (start_of S.items self.entry.controller) self.entry.ear
            (over self.entry.wire self.entry.playing.recorder) self.entry.playing.left self.entry.playing.signs
            self.entry.playing.console.hand.list)) }
        ensures works { IfOk result (λ next. W.failures next.wire ≡ 0) }
        ensures list { IfOk result (λ next. next.controller.source ≡ self.entry.controller.source) }
        ensures fewer { IfOk result (λ next. next.playing.left < self.entry.playing.left) }
        ensures ended { IfErr result (λ end.
            HasEnded W.does F.safe E.fold settings.entry (onset_of (start_of S.items self.entry.controller) self.entry.ear
            (over self.entry.wire self.entry.playing.recorder) self.entry.playing.left self.entry.playing.signs
            self.entry.playing.console.hand.list) end.2 end.0) }
        ensures ended_works { IfErr result (λ end. end.0.line ≢ LineEnd.Failed → W.failures end.2 ≡ 0) }
        ensures asrun { IfErr result (λ end. HasAsrun settings.entry (S.items self.entry.controller.source.source) end.0) }
    {
        let Stretch {
            playing,
            controller,
            ear,
            wire,
        } = self;
        let Playing {
            recorder,
            console,
            left: most,
            signs,
        } = playing;
        let turns = RunSettings {
            listens: most,
            ..settings
        };
        let Asked {
            line,
            ear,
            wire,
            mut console,
            left,
            signs,
        } = console.ask_first(&controller, ear, wire, signs, turns);
        if let Some(line) = line {
            let end = console.end(&controller, line, signs, None, left, settings);
            return Err((end, console, wire));
        }
        let playing = Playing {
            recorder,
            console,
            left,
            signs,
        };
        let driver = Driver::with_ear(controller, settings.unit, ear, wire);
        playing.play(driver, most, settings)
    }
}

impl<
    'a,
    'r,
    'l,
    R: Files + Clock + AllocGlobal,
    F: Disk + Drop,
    I: io::Read + Drop,
    O: io::Write + Drop,
    V: io::Write + Drop,
> Playing<'a, 'r, 'l, R, F, I, O, V> {
    // `most` turns may be made from the beginning of the stretch on.
    fn play<S: Source + Copy, E: Ear + Drop, W: Wire + Drop>(
        mut self,
        mut driver: Driver<Rest<S>, E, W>,
        most: u32,
        settings: RunSettings<'a>,
    ) -> Result<
        Stretch<'a, 'r, 'l, R, F, I, O, V, S, E, W>,
        (RunEnd<'a>, Console<'r, 'l, R, I, O, V>, W),
    >
        requires works { W.failures driver.wire ≡ 0 }
        requires unit { driver.unit ≡ settings.unit }
        ensures held { IfOk result (λ next. (is_held : Bool) (ear : E) (wire : W) (signs : Signs) (z : Onset E W F)
            → (let x : Onset E W F = onset_of (start_of S.items driver.controller) ear (over wire self.entry.recorder) most signs
            self.entry.console.hand.list in
            AsksFirst W.does E.fold settings.entry is_held x driver.ear driver.wire self.entry.left self.entry.signs None
            → HasHeld W.does F.safe E.fold settings.entry z (onset_of (start_of S.items next.controller) next.ear
            (over next.wire next.playing.recorder) next.playing.left next.playing.signs next.playing.console.hand.list)
            → HasHeld W.does F.safe E.fold settings.entry z x)) }
        ensures works { IfOk result (λ next. W.failures next.wire ≡ 0) }
        ensures list { IfOk result (λ next. next.controller.source ≡ driver.controller.source) }
        ensures fewer { IfOk result (λ next. next.playing.left < most) }
        ensures ended { IfErr result (λ end. Plays W.does F.safe E.fold driver.ear driver.unit self.entry.left
            self.entry.signs self.entry.console.hand.list (start_of S.items driver.controller) (over driver.wire self.entry.recorder) end.2 end.0) }
        ensures ended_works { IfErr result (λ end. end.0.line ≢ LineEnd.Failed → W.failures end.2 ≡ 0) }
        ensures asrun { IfErr result (λ end. HasAsrun settings.entry (S.items driver.controller.source.source) end.0) }
    {
        let ran = driver.run_with(u64::from(self.left), &mut self);
        let line = self.line_of(ran, driver.controller());
        if most == 0 || !self.is_held(ran, driver.controller()) {
            let unkept = close(&mut self.recorder, driver.controller(), line);
            return Err(self.end(driver, line, unkept, settings));
        }
        if let Some(lack) = write_out(&mut self.recorder) {
            return Err(self.end(driver, line, Some(lack), settings));
        }
        let (controller, ear, wire) = driver.into_parts();
        self.left = self.left.min(most - 1);
        Ok(Stretch {
            playing: self,
            controller,
            ear,
            wire,
        })
    }

    fn line_of<S: Source>(
        &self,
        ran: Result<Ran, BrokenOff>,
        controller: &Controller<Rest<S>>,
    ) -> LineEnd
        ensures { (kept : ℕ) × (result ≡ line_end_of ran (is_unplayed controller.now.mode self.now.signs controller.now.state)
            (controller.now.source.from + controller.now.state.settled) kept)
            × IsNextKept self.now.console.hand.list.left_out (controller.now.source.from + controller.now.state.settled) kept }
    {
        let snapshot = controller.snapshot();
        let outcome = controller.outcome();
        let unplayed = self.signs.is_unplayable(snapshot.mode, outcome) && !snapshot.stop;
        let reported = reported_in_list(controller);
        LineEnd::of_run(
            ran,
            unplayed,
            reported,
            self.console.hand.next_kept(reported),
        )
    }

    // Whether the run was left since the PLAY that comes next is held.
    fn is_held<S: Source>(
        &self,
        ran: Result<Ran, BrokenOff>,
        controller: &Controller<Rest<S>>,
    ) -> bool
        ensures { IsTrue result → (ran ≡ Err BrokenOff.Left)
            × IsTrue (holds_back self.now.console.hand.list.holds controller.now.state)
            × IsNextKept self.now.console.hand.list.left_out (controller.now.source.from + controller.now.state.settled)
            (controller.now.source.from + controller.now.state.settled) }
    {
        let (hand, reported) = (&self.console.hand, reported_in_list(controller));
        let is_left = ran == Err(BrokenOff::Left);
        is_left && hand.next_kept(reported) == reported && hand.holds_back(controller)
    }

    fn end<S: Source + Copy, E: Ear + Drop, W: Wire + Drop>(
        self,
        driver: Driver<Rest<S>, E, W>,
        line: LineEnd,
        unkept: Option<Lack<'a>>,
        settings: RunSettings<'a>,
    ) -> (RunEnd<'a>, Console<'r, 'l, R, I, O, V>, W)
        ensures reports { Reports driver.controller.source.from driver.controller.state result.0 }
        ensures line { result.0.line ≡ line }
        ensures signs { result.0.signs ≡ self.entry.signs }
        ensures kept { result.0.unkept ≡ unkept.entry }
        ensures left { result.0.left ≡ self.entry.left }
        ensures asrun { HasAsrun settings.entry (S.items driver.controller.source.source) result.0 }
        ensures wire { result.2 ≡ driver.wire }
    {
        let Playing {
            mut console,
            left,
            signs,
            ..
        } = self;
        let end = console.end(driver.controller(), line, signs, unkept, left, settings);
        let (_, _, wire) = driver.into_parts();
        (end, console, wire)
    }
}

// Writes all that waits to the journal, if there is one; or tells why it isn't whole.
fn write_out<'a, R: Files + Clock + AllocGlobal, F: Disk + Drop>(
    recorder: &mut Option<Recorder<'a, '_, R, F>>,
) -> Option<Lack<'a>>
    ensures written { IfNone result (IsWritten F.safe recorder.old recorder.new) }
    ensures unkept { IfSome result (λ lack. IsSomeAnd recorder.old (λ r. lack.journal ≡ r.name)) }
{
    let Some(recorder) = recorder else {
        return None;
    };
    let journal = recorder.name();
    match recorder.finish(None) {
        Ok(()) => None,
        Err(fault) => Some(Lack { journal, fault }),
    }
}

// No answer is heard any more: if one is awaited, the journal says that none came. Else a state that was heard before would
// announce a PLAY, as if one could have gone out.
fn end_open<S: Source, R: Files + Clock + AllocGlobal, F: Disk + Drop>(
    recorder: &mut Recorder<'_, '_, R, F>,
    controller: &Controller<Rest<S>>,
)
    ensures { EndsOpen (is_awaiting controller.now.state.stage) recorder.old recorder.new }
{
    if controller.awaiting() {
        Hooks::<Rest<S>>::note_end(recorder, None);
    }
}

fn close<'a, S: Source, R: Files + Clock + AllocGlobal, F: Disk + Drop>(
    recorder: &mut Option<Recorder<'a, '_, R, F>>,
    controller: &Controller<Rest<S>>,
    line: LineEnd,
) -> Option<Lack<'a>>
    ensures { IsClosed F.safe controller.now.state.stage line result recorder.old }
{
    let Some(recorder) = recorder else {
        return None;
    };
    let journal = recorder.name();
    end_open(recorder, controller);
    let fault = match recorder.finish(controller.outcome()) {
        Err(fault) => fault,
        Ok(()) if line == LineEnd::Unkept => RecordFault::Device,
        Ok(()) => return None,
    };
    Some(Lack { journal, fault })
}

//! What a journal says of the events before the one with which a run goes on.
ghost use Rattle.std.specs.Prelude.{◌≡◌, All, slice_get};
ghost use Rattle.vdcp_run.specs.Before.{IsSaidBy, ends_missing, ends_refused, is_this, kept_by, said_after, said_of, said_or, why_by, why_left_out};

use crate::in_list::reported_in_list;
use jiff::Timestamp;
use std::alloc::Global;
use std::str::{self, FromStr};
use vdcp_auto::{Controller, Outcome, Source};
use vdcp_journal::{Airing, Moment};
use vdcp_journal_file::RunAirings;
use vdcp_list::Rest;
use vdcp_operator::{EventBefore, ROWS_BEFORE, Reason, Record};

/// What the runs of a journal show of an event.
#[derive(Clone, Copy)]
pub enum Said {
    /// None shows that it aired or may have.
    LeftOut,
    /// One shows that it may have aired, and none that it did.
    MayHaveAired,
    /// How it aired last.
    Aired(Airing),
}

/// What the runs of a journal show of the last `ROWS_BEFORE` events before the next one; of fewer if memory is refused.
pub fn events_before<S: Source>(
    alloc: Global,
    runs: &[RunAirings],
    controller: &Controller<Rest<S>>,
) -> Vec<EventBefore>
    ensures { All (IsSaidBy runs.now) result.items }
{
    let mut events = Vec::new(alloc);
    if runs.is_empty() {
        return events;
    }
    let next = reported_in_list(controller);
    for event in next.saturating_sub(ROWS_BEFORE)..next {
        match events.push(event_before(runs, event)) {
            Ok(()) => {}
            Err(_) => return events,
        }
    }
    events
}

fn event_before(runs: &[RunAirings], event: usize) -> EventBefore
    ensures { IsSaidBy runs.now result }
{
    let said = said_of(runs, event);
    let (at, until) = match said {
        Said::Aired(airing) => (
            millis_of(airing.played),
            match airing.ended {
                Some(row) => millis_of(row.time),
                None => None,
            },
        ),
        Said::LeftOut | Said::MayHaveAired => (None, None),
    };
    EventBefore {
        number: event as u64,
        kept: kept_by(said),
        why: why_by(said, runs, event),
        at,
        until,
    }
}

fn why_by(said: Said, runs: &[RunAirings], event: usize) -> Option<Reason>
    ensures { result ≡ why_by said runs.now event }
{
    match said {
        Said::LeftOut => Some(why_left_out(runs, event)),
        Said::MayHaveAired | Said::Aired(_) => None,
    }
}

fn why_left_out(runs: &[RunAirings], event: usize) -> Reason
    ensures { result ≡ why_left_out runs.now event }
{
    match runs {
        [] => Reason::ByHand,
        [run, later @ ..] => {
            if ends_missing(run, event) {
                Reason::Missing
            } else if ends_refused(run, event) {
                Reason::Refused
            } else {
                why_left_out(later, event)
            }
        }
    }
}

fn ends_missing(run: &RunAirings, event: usize) -> bool
    ensures { result ≡ ends_missing run.now.ended event }
{
    match &run.ended {
        Ok((first, Some(Outcome::Missing(_)))) => *first == event,
        _ => false,
    }
}

fn ends_refused(run: &RunAirings, event: usize) -> bool
    ensures { result ≡ ends_refused run.now.ended event }
{
    match &run.ended {
        Ok((first, Some(Outcome::Refused(_)))) => *first == event,
        _ => false,
    }
}

fn kept_by(said: Said) -> Record
    ensures { result ≡ kept_by said }
{
    match said {
        Said::LeftOut => Record::LeftOut,
        Said::MayHaveAired => Record::MayHaveAired,
        Said::Aired(_) => Record::Aired,
    }
}

fn said_of(runs: &[RunAirings], event: usize) -> Said
    ensures { result ≡ said_of runs.now event }
{
    let mut said = Said::LeftOut;
    for k in 0..runs.len() {
        said = said_after(said, &runs[k], event);
    }
    said
}

fn said_after(said: Said, run: &RunAirings, event: usize) -> Said
    ensures { result ≡ said_after said run.now event }
{
    match event.checked_sub(run.from) {
        Some(k) => said_or(said, airing_at(run, k), is_this(run.unsettled, k)),
        None => said,
    }
}

fn airing_at(run: &RunAirings, k: usize) -> Option<Airing>
    ensures { result ≡ slice_get run.now.airings.items k }
{
    match run.airings.get(k) {
        Some(airing) => Some(*airing),
        None => None,
    }
}

fn is_this(event: Option<usize>, k: usize) -> bool
    ensures { result ≡ is_this event k }
{
    match event {
        Some(n) => n == k,
        None => false,
    }
}

// Of two runs the later one counts, but `Aired` goes before `MayHaveAired`.
fn said_or(said: Said, airing: Option<Airing>, may: bool) -> Said
    ensures { result ≡ said_or said airing may }
{
    match (airing, said, may) {
        (Some(airing), _, _) => Said::Aired(airing),
        (None, Said::LeftOut, true) => Said::MayHaveAired,
        (None, Said::LeftOut, false) => Said::LeftOut,
        (None, Said::MayHaveAired, _) => Said::MayHaveAired,
        (None, Said::Aired(airing), _) => Said::Aired(airing),
    }
}

// Since 1970; None if no clock gave the moment.
fn millis_of(moment: Moment) -> Option<u64> {
    let text = str::from_utf8(moment.clocked()).ok()?;
    let time = Timestamp::from_str(text).ok()?;
    u64::try_from(time.as_millisecond()).ok()
}

//! The subcommand `run`: its files, one session, and the report.
ghost use Rattle.std.specs.Prelude.{◌≡◌, ◌<◌, ◌≤◌, IfOk, IfSome, None, OnOk, length};
ghost use Rattle.vdcp_files.specs.Files.{file};
ghost use Rattle.vdcp_list.specs.List.{items_of};
ghost use Rattle.vdcp_list.specs.Playlists.{IsListOf};
ghost use Rattle.vdcp_run.specs.Run.{CameTo, IsApart, IsEnd, IsPlayed, IsRun, first_event, later_after, latest_end, unbegun_journal};
ghost use Rattle.vdcp_wire.specs.Streams.{failures_of};

use crate::advice::Advice;
use crate::asrun::save_asrun_of_journal;
use crate::begin::begin;
use crate::console::Console;
use crate::place::{Apart, tell_place};
use crate::run_end::RunEnd;
use crate::session::Session;
use crate::settings::{RunJournal, RunSettings, Showing};
use crate::staying::{Pace, later_of, once_occupied, once_unsure};
use std::fs::{self, File};
use std::io;
use std::net::{Net, SocketAddrV4};
use std::rt::{Clock, Files};
use vdcp_auto::Source;
use vdcp_files::NamedFile;
use vdcp_log::{Log, Side};
use vdcp_operator::Hand;
use vdcp_text::{Failure, JournalFault};
use vdcp_wire::address_of;

/// Plays a list through the port of a server at `address`: an IPv4 address, a colon and a TCP port. However the run ends,
/// the as-run file, if one is named, lists the events that it reports, and those of the journal that it went on from; an
/// older file of other bytes is kept beside. `out` gets the report, which counts events in the whole list, `err` the
/// fault lines of as-run file, journal and line, and `advice` what an unwanted end means and what to type next.
///
/// If the port is to be asked and OPEN comes next, it is asked first, by OPEN, SELECT and STATUS. As many unanswered
/// questions in a row as the limit end the run as Lost, and a denied OPEN ends it as Denied.
///
/// The status is 3 if `out` or `err` failed, which then gets no more; else it is
/// - 0 if the controller ended Done or Stopped, or the operator stopped while the port was asked;
/// - 1 if it ended Denied, Missing, Refused, Foreign or Strange;
/// - 3 if it ended Lost, the other end closed, the turns are used up, the line failed, the as-run list or a row of
///   the journal isn't written, or a run that stays couldn't go on: then `err` says why.
///
/// If a run doesn't come to this, no file is made, `out` gets nothing and `err` one fault line. The status is then
/// - 1 if the port isn't empty, a row of list or journal is refused, or the event to begin with isn't there or may have
///   aired;
/// - 2 if the address is none, which is tested before the list is read;
/// - 3 if the list can't be read, the as-run file is the list or the journal or, with a journal, can't be made, the
///   journal exists, is in use or can't be opened, read or written, memory is refused, or nobody takes the connection
///   within five seconds and the run doesn't stay.
pub fn do_run<
    's,
    'r,
    R: Net + Files<File = File> + Clock + AllocGlobal,
    L: io::Read + Drop,
    V: io::Write + Drop,
    I: io::Read + Drop,
    O: io::Write + Drop,
    W: io::Write,
    E: io::Write,
>(
    rt: &'r R,
    address: &str,
    list: NamedFile<'_, L>,
    settings: RunSettings<'s>,
    showing: Showing<V>,
    hand: Hand<'r, R, I, O>,
    advice: &mut Option<Advice<'s>>,
    out: &mut W,
    err: &mut E,
) -> u8
    requires unit { settings.unit ≤ 15 }
    requires some { 1 ≤ settings.limit }
    requires few { settings.limit ≤ 1000 }
    ensures { result ≡ 0 → IsRun R.Stream settings.entry (file list.entry.name (L.remaining list.entry.reader)) }
{
    match run_shown(rt, address, list, settings, showing, hand) {
        Ok(end) => {
            *advice = match end.failed {
                Some(failure) => Advice::of_failure(failure),
                None => Advice::of_end(&end, settings),
            };
            end.tell(out, err).unwrap_or(3)
        }
        Err(failure) => {
            *advice = Advice::of_failure(failure);
            failure.report(err)
        }
    }
}

fn run_shown<
    'a,
    'r,
    R: Net + Files<File = File> + Clock + AllocGlobal,
    L: io::Read + Drop,
    V: io::Write + Drop,
    I: io::Read + Drop,
    O: io::Write + Drop,
>(
    rt: &'r R,
    address: &str,
    list: NamedFile<'a, L>,
    settings: RunSettings<'a>,
    showing: Showing<V>,
    hand: Hand<'r, R, I, O>,
) -> Result<RunEnd<'a>, Failure<'a>>
    requires unit { settings.unit ≤ 15 }
    requires some { 1 ≤ settings.limit }
    requires few { settings.limit ≤ 1000 }
    ensures { IfOk result (IsPlayed R.Stream settings.entry (file list.entry.name (L.remaining list.entry.reader))) }
{
    let Showing {
        terminal,
        telling,
        capture,
    } = showing;
    let log = Log::new(telling, capture, Side::Automation);
    let console = Console::new(rt, hand, terminal, &log, settings);
    let session = Session::unconnected(console, Pace::new(rt));
    session.run_list(address, list, settings)
}

impl<
    'r,
    'l,
    R: Net + Files<File = File> + Clock + AllocGlobal,
    I: io::Read + Drop,
    O: io::Write + Drop,
    V: io::Write + Drop,
> Session<'r, 'l, R, I, O, V> {
    fn run_list<'a, L: io::Read + Drop>(
        self,
        address: &str,
        list: NamedFile<'a, L>,
        settings: RunSettings<'a>,
    ) -> Result<RunEnd<'a>, Failure<'a>>
        requires unit { settings.unit ≤ 15 }
        requires some { 1 ≤ settings.limit }
        requires few { settings.limit ≤ 1000 }
        requires new { self.line ≡ None }
        ensures { IfOk result (IsPlayed R.Stream settings.entry (file list.entry.name (L.remaining list.entry.reader))) }
    {
        let Ok(address) = address_of(address) else {
            return Err(Failure::Address);
        };
        let (rt, name) = (self.console.rt, list.name);
        let (events, _) = read_events(rt, list, settings)?;
        tell_place(rt, settings, self.console.log);
        match self.play_events(address, &events, settings) {
            Ok(end) => Ok(end),
            Err(failure) => Err(told_of_list(name, failure)),
        }
    }

    fn play_events<'a>(
        self,
        address: SocketAddrV4,
        events: &vdcp_list::List,
        settings: RunSettings<'a>,
    ) -> Result<RunEnd<'a>, Failure<'a>>
        requires unit { settings.unit ≤ 15 }
        requires some { 1 ≤ settings.limit }
        requires few { settings.limit ≤ 1000 }
        requires listed { first_event settings.from ≤ length (items_of events.now) }
        requires new { self.line ≡ None }
        ensures { IfOk result (IsEnd R.Stream settings.entry (items_of events.now)) }
    {
        let mut settings = settings;
        let mut earlier = None;
        let (mut end, mut session) = self.try_events(address, events, settings);
        'tries: while let Some(later) = later_after(&end, events.len(), settings) {
            session.console.tell_again(&end, later);
            settings = later;
            let (next, rest) = session.try_events(address, events, settings);
            earlier = latest_end(end, earlier);
            end = next;
            session = rest;
        }
        match (end, earlier) {
            (Err(failure), Some(before)) => Ok(RunEnd {
                asrun: save_asrun_of_journal(session.console.rt, events, settings),
                failed: Some(failure),
                ..before
            }),
            (end, _) => end,
        }
    }

    fn try_events<'a>(
        self,
        address: SocketAddrV4,
        events: &vdcp_list::List,
        settings: RunSettings<'a>,
    ) -> (Result<RunEnd<'a>, Failure<'a>>, Self)
        requires unit { settings.unit ≤ 15 }
        requires some { 1 ≤ settings.limit }
        requires few { settings.limit ≤ 1000 }
        requires listed { first_event settings.from ≤ length (items_of events.now) }
        requires works { IfSome self.line (λ wire. failures_of wire.connection ≡ 0) }
        ensures came { CameTo R.Stream settings.entry (items_of events.now) self.entry.line result.0 result.1.line }
        ensures works { IfSome result.1.line (λ wire. failures_of wire.connection ≡ 0) }
    {
        let rt = self.console.rt;
        let begun = match begin(rt, events, settings) {
            Ok((begun, _)) => begun,
            Err(failure) => {
                return (Err(failure), Session::unconnected(self.console, self.pace));
            }
        };
        let (end, session) = self.play_at(address, begun, settings);
        if let Some(name) = unbegun_journal(&end, settings.journal) {
            let _ = fs::remove_file(rt, name);
        }
        (end, session)
    }
}

fn later_after<'a>(
    end: &Result<RunEnd<'_>, Failure<'_>>,
    count: usize,
    settings: RunSettings<'a>,
) -> Option<RunSettings<'a>>
    ensures later { result ≡ later_after settings.entry count end.now }
    ensures same { IfSome result (λ later. (later.unit ≡ settings.entry.unit) × (later.limit ≡ settings.entry.limit)) }
    ensures listed { first_event settings.entry.from ≤ count → IfSome result (λ later. first_event later.from ≤ count) }
    ensures fewer { IfSome result (λ later. later.listens < settings.entry.listens) }
{
    match end {
        Ok(end) => later_of(end, count, settings),
        Err(Failure::MayHaveAired(event)) => once_unsure(*event, count, settings),
        Err(Failure::NotEmpty) => once_occupied(settings),
        Err(_) => None,
    }
}

fn latest_end<'a>(
    end: Result<RunEnd<'a>, Failure<'a>>,
    earlier: Option<RunEnd<'a>>,
) -> Option<RunEnd<'a>>
    ensures { result ≡ latest_end end.entry earlier.entry }
{
    match end {
        Ok(end) => Some(end),
        Err(_) => earlier,
    }
}

// A new journal of a list that wasn't begun is removed, so that its name is free for the next run.
fn unbegun_journal<'a>(
    end: &Result<RunEnd<'_>, Failure<'_>>,
    journal: Option<RunJournal<'a>>,
) -> Option<&'a str>
    ensures { result ≡ unbegun_journal end.now journal.entry }
{
    match (end, journal) {
        (Err(_), Some(RunJournal::New(name))) => Some(name),
        _ => None,
    }
}

fn read_events<'a, R: Files + AllocGlobal, L: io::Read + Drop>(
    rt: &R,
    list: NamedFile<'a, L>,
    settings: RunSettings<'a>,
) -> Result<(vdcp_list::List, Apart<'a>), Failure<'a>>
    ensures events { IfOk result (λ r. IsListOf settings.entry.rate (L.remaining list.entry.reader) (items_of r.0)) }
    ensures listed { IfOk result (λ r. first_event settings.entry.from ≤ length (items_of r.0)) }
    ensures apart { IfOk result (λ r. IsApart settings.entry.asrun list.entry.name r.1) }
{
    let name = list.name;
    let events = list.read_list(rt.alloc(), settings.rate)?;
    test_event(&events, settings.from)?;
    let apart = test_list(rt, settings.asrun, name)?;
    Ok((events, apart))
}

fn test_list<'a, R: Files>(
    rt: &R,
    asrun: Option<&'a str>,
    list: &'a str,
) -> Result<Apart<'a>, Failure<'a>>
    ensures { IfOk result (IsApart asrun.entry list.entry) }
{
    match Apart::test(rt, asrun, list) {
        Ok(apart) => Ok(apart),
        Err(asrun) => Err(Failure::IsList(asrun)),
    }
}

// A journal of another list is the list's fault: its name is told, and not the journal's row.
fn told_of_list<'a>(list: &'a str, failure: Failure<'a>) -> Failure<'a> {
    match failure {
        Failure::JournalRow(_, _, JournalFault::List) => Failure::NotTheList(list),
        other => other,
    }
}

fn test_event<'a, S: Source>(source: &S, from: Option<usize>) -> Result<(), Failure<'a>>
    ensures { OnOk result (first_event from ≤ length (S.items source.now)) }
{
    match from {
        Some(event) if event > source.len() => Err(Failure::NoEvent(event)),
        _ => Ok(()),
    }
}

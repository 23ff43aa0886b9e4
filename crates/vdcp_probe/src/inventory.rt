//! The subcommand `ask`: does a server have the clips of a list?
ghost use Rattle.std.specs.Io.KnownBytes.{Keeps};
ghost use Rattle.std.specs.Prelude.{◌≡◌, ◌≤◌, IfOk, OnOk, length, true};
ghost use Rattle.vdcp_files.specs.Files.{file};
ghost use Rattle.vdcp_list.specs.List.{items_of};
ghost use Rattle.vdcp_probe.specs.Inventory.{IsAsked, IsCheckedBy};

use crate::asking::Asker;
use std::io;
use std::net::Net;
use std::rt::Clock;
use vdcp_auto::{Heard, Source};
use vdcp_files::{NamedFile, write_findings};
use vdcp_frame::Messages;
use vdcp_list::{List, Table};
use vdcp_text::{Failure, ItemText};
use vdcp_value::{ClipId, Item, Rate, Timecode};
use vdcp_wire::{Wire, address_of};
use vdcp_words::{Command, Reply};

#[derive(Clone, Copy, Debug, PartialEq, Eq)]
pub struct AskSettings {
    /// The server's unit address, 0 to 15.
    pub unit: u8,
    /// The rate of the list's time codes.
    pub rate: Rate,
    /// An answer ends with such a silence, or after 16 times as long: 1 to 60,000 milliseconds.
    pub silence: u32,
}

#[derive(Clone, Copy)]
enum AskFault<'a> {
    // It says neither that the server has the clip nor that it hasn't, or gives no length.
    Answer(Rate, ClipId),
    Failed(Failure<'a>),
}

impl<'a> From<Failure<'a>> for AskFault<'a> {
    fn from(failure: Failure<'a>) -> Self {
        AskFault::Failed(failure)
    }
}

impl AskFault<'_> {
    fn report<E: io::Write>(self, err: &mut E) -> u8
        ensures { result ≤ 3 }
    {
        match self {
            AskFault::Failed(failure) => failure.report(err),
            AskFault::Answer(rate, id) => {
                let item = Item { id, part: None };
                let _ = writeln!(err, "vdcp: {}: answer", ItemText { rate, item });
                3
            }
        }
    }
}

/// Asks the server at `address`, an IPv4 address, a colon and a TCP port, for each clip of a playlist, and its length.
/// `out` gets how many events there are and how many of their clips the server has, and the lines that `do_check` writes
/// of events that can't be played. Only ID REQUEST and ID SIZE REQUEST go out, once for a clip, or again if nothing comes:
/// the port needn't be open, and stays as it is.
///
/// The status is 0 if each event can be played, 1 if one can't or a row is refused, 2 if the address is none (tested
/// first), and 3 if a file, memory, the connection or a writer fails, or a clip's answer doesn't come or says neither yes
/// nor no. `err` gets a line of each failure but a writer's.
pub fn do_ask<R: Net + Clock + AllocGlobal, L: io::Read + Drop, W: io::Write, E: io::Write>(
    rt: &R,
    address: &str,
    list: NamedFile<'_, L>,
    settings: AskSettings,
    out: &mut W,
    err: &mut E,
) -> u8
    requires { settings.unit ≤ 15 }
    ensures playable { result ≡ 0 → IsAsked settings.rate (file list.entry.name (L.remaining list.entry.reader))
        (W.contents out.old) (W.contents out.new) true }
    ensures untold { result ≡ 0 → Keeps (E.contents err.old) (E.contents err.new) }
    ensures statuses { result ≤ 3 }
{
    match ask_at(rt, address, list, settings, out) {
        Ok(true) => 0,
        Ok(false) => 1,
        Err(fault) => fault.report(err).max(1),
    }
}

fn ask_at<'a, R: Net + Clock + AllocGlobal, L: io::Read + Drop, W: io::Write>(
    rt: &R,
    address: &str,
    list: NamedFile<'a, L>,
    settings: AskSettings,
    out: &mut W,
) -> Result<bool, AskFault<'a>>
    requires { settings.unit ≤ 15 }
    ensures { IfOk result (IsAsked settings.rate (file list.entry.name (L.remaining list.entry.reader))
        (W.contents out.old) (W.contents out.new)) }
{
    let Ok(address) = address_of(address) else {
        return Err(AskFault::Failed(Failure::Address));
    };
    let events = list.read_list(rt.alloc(), settings.rate)?;
    let mut asker = Asker::connect(rt, address, settings.silence)?;
    ask_events(&events, settings, &mut asker, out)
}

fn ask_events<'a, S: Source, R: Clock + AllocGlobal, T: Wire, W: io::Write>(
    events: &S,
    settings: AskSettings,
    asker: &mut Asker<'_, R, T>,
    out: &mut W,
) -> Result<bool, AskFault<'a>>
    requires unit { settings.unit ≤ 15 }
    requires works { T.failures asker.old.wire ≡ 0 }
    ensures { IfOk result (IsCheckedBy (S.items events.now) (W.contents out.old) (W.contents out.new)) }
{
    let mut clips = Table::new(asker.alloc());
    for k in 0..events.len() {
        let id = events.at(k).id;
        if is_first(events, k, id)
            && let Some(length) = length_at(id, settings, asker)?
        {
            if clips.add(id, length).is_err() {
                return Err(AskFault::Failed(Failure::Memory));
            }
        }
    }
    match write_findings(events, &clips, clips.len(), out) {
        Ok(playable) => Ok(playable),
        Err(_) => Err(AskFault::Failed(Failure::Writer)),
    }
}

fn is_first<S: Source>(events: &S, k: usize, id: ClipId) -> bool
    requires { k ≤ length (S.items events.now) }
{
    for before in 0..k {
        if events.at(before).id == id {
            return false;
        }
    }
    true
}

fn length_at<'a, R: Clock + AllocGlobal, T: Wire>(
    id: ClipId,
    settings: AskSettings,
    asker: &mut Asker<'_, R, T>,
) -> Result<Option<Timecode>, AskFault<'a>>
    requires unit { settings.unit ≤ 15 }
    requires works { T.failures asker.old.wire ≡ 0 }
    ensures works { OnOk result (T.failures asker.new.wire ≡ 0) }
{
    match reply_to(Command::IdRequest(id), settings.unit, asker)? {
        Some(Reply::Present(false)) => return Ok(None),
        Some(Reply::Present(true)) => {}
        _ => return Err(AskFault::Answer(settings.rate, id)),
    }
    match reply_to(Command::IdSize(id), settings.unit, asker)? {
        Some(Reply::Size(bytes)) => match Timecode::from_bcd(settings.rate, bytes) {
            Ok(length) => Ok(Some(length)),
            Err(_) => Err(AskFault::Answer(settings.rate, id)),
        },
        _ => Err(AskFault::Answer(settings.rate, id)),
    }
}

fn reply_to<R: Clock + AllocGlobal, T: Wire>(
    command: Command,
    unit: u8,
    asker: &mut Asker<'_, R, T>,
) -> Result<Option<Reply>, Failure<'static>>
    requires unit { unit ≤ 15 }
    requires works { T.failures asker.old.wire ≡ 0 }
    ensures works { OnOk result (T.failures asker.new.wire ≡ 0) }
{
    let answer = asker.ask_again(&command.encode(unit))?;
    Ok(first_reply(answer.bytes.as_slice(), unit))
}

fn first_reply(came: &[u8], unit: u8) -> Option<Reply> {
    let message = Messages::of(came).next()?;
    match Heard::of_message(&message, unit) {
        Heard::Reply(reply) => Some(reply),
        Heard::Other => None,
    }
}

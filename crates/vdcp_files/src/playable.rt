//! Which events can't be played with a catalogue's clips.
ghost use Rattle.std.specs.Io.KnownBytes.{Appends};
ghost use Rattle.std.specs.Prelude.{◌≡◌, IfOk, OnOk, length};
ghost use Rattle.vdcp_files.specs.Playable.{are_playable, check_text, event_text, events_text, fault_of};

use arrayvec::ArrayString;
use std::{fmt, io};
use vdcp_auto::Source;
use vdcp_port::Catalogue;
use vdcp_value::{ClipId, Item};

/// Writes how many events and how many clips there are, and a line for each event that can't be played with these
/// clips. Then it flushes, and says whether each event can.
pub fn write_findings<S: Source, C: Catalogue, W: io::Write>(
    events: &S,
    clips: &C,
    clip_count: usize,
    out: &mut W,
) -> io::Result<bool>
    requires { clip_count ≡ length (C.clips clips.now) }
    ensures text { OnOk result (Appends (W.contents out.old) (W.contents out.new)
        (check_text (C.clips clips.now) (S.items events.now))) }
    ensures playable { IfOk result (λ playable. playable ≡ are_playable (C.clips clips.now) (S.items events.now)) }
{
    let event_count = events.len();
    writeln!(out, "events {event_count}")?;
    writeln!(out, "clips {clip_count}")?;
    let playable = write_events(events, clips, out)?;
    out.flush()?;
    Ok(playable)
}

fn write_events<S: Source, C: Catalogue, W: io::Write>(
    events: &S,
    clips: &C,
    out: &mut W,
) -> io::Result<bool>
    ensures text { OnOk result (Appends (W.contents out.old) (W.contents out.new)
        (events_text (C.clips clips.now) 0 (S.items events.now))) }
    ensures playable { IfOk result (λ playable. playable ≡ are_playable (C.clips clips.now) (S.items events.now)) }
{
    let mut playable = true;
    for k in 0..events.len() {
        let item = events.at(k);
        let fault = fault_of(clips, &item);
        write_event(k, item.id, fault, out)?;
        playable &= fault.is_none();
    }
    Ok(playable)
}

fn write_event<W: io::Write>(
    k: usize,
    id: ClipId,
    fault: Option<EventFault>,
    out: &mut W,
) -> io::Result<()>
    ensures { OnOk result (Appends (W.contents out.old) (W.contents out.new) (event_text k id fault)) }
{
    let Some(fault) = fault else {
        return Ok(());
    };
    let mut text = ArrayString::<18>::new();
    id.show(&mut text);
    let id = text.as_str();
    writeln!(out, "{fault} {k} {id}")
}

#[derive(Clone, Copy)]
enum EventFault {
    Missing,
    Outside,
}

impl fmt::Display for EventFault {
    ghost use Rattle.std.specs.Prelude.{Some};
    ghost use Rattle.vdcp_files.specs.Playable.{fault_text};

    ghost output = { λ fault. Some (fault_text fault) };

    fn fmt<W: fmt::Write>(&self, f: &mut fmt::Formatter<W>) -> fmt::Result {
        match self {
            EventFault::Missing => write!(f, "missing"),
            EventFault::Outside => write!(f, "outside"),
        }
    }
}

fn fault_of<C: Catalogue>(clips: &C, item: &Item) -> Option<EventFault>
    ensures { result ≡ fault_of (C.clips clips.now) item.now }
{
    let Some(length) = clips.length(&item.id) else {
        return Some(EventFault::Missing);
    };
    match item.part {
        Some(part) if !part.fits(&length) => Some(EventFault::Outside),
        Some(_) | None => None,
    }
}

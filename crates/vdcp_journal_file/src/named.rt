//! The events that a journal's own rows name.
ghost use Rattle.std.proofs.Props.{props};
ghost use Rattle.std.specs.Prelude.{◌<◌, ◌≡◌, All, IfSome, length};
ghost use Rattle.vdcp_journal_file.specs.Places.{checked_after, event_after};
ghost use Rattle.vdcp_value.specs.Parts.{IsItem, IsPart};

use crate::reading::{Refusal, read_refusal, refusal_of};
use std::alloc::{AllocError, Global};
use std::io;
use vdcp_auto::Source;
use vdcp_journal::{JournalRows, Note, WholeLines};
use vdcp_list::MAX_ROWS;
use vdcp_text::JournalFault;
use vdcp_value::laws::a_time_code_has_lawful_bytes;
use vdcp_value::{ClipId, Item, Part, Rate, Timecode};
use vdcp_words::Command;

/// The events that rows name: of each the item that was cued, or else the clip that was asked for. An event before these
/// that no row names is a clip without a name.
#[derive(Drop)]
pub(crate) struct NamedEvents {
    items: Vec<Item>,
    ghost of_bytes: { All IsItem items.items } by { Prim.hlevel props },
}

impl NamedEvents {
    fn new(alloc: Global) -> NamedEvents {
        NamedEvents {
            items: Vec::new(alloc),
        }
    }

    fn set(&mut self, event: usize, item: Item) -> Result<(), AllocError>
        requires { IsItem item }
    {
        self.extend(event)?;
        if event < self.items.len() {
            self.replace(event, item);
            Ok(())
        } else {
            self.push(item)
        }
    }

    fn extend(&mut self, count: usize) -> Result<(), AllocError> {
        for _ in self.items.len()..count {
            self.push(whole(ClipId::new(*b"        ")))?;
        }
        Ok(())
    }

    fn push(&mut self, item: Item) -> Result<(), AllocError>
        requires { IsItem item }
    {
        self.items.push(item)?;
        Ok(())
    }

    fn replace(&mut self, event: usize, item: Item)
        requires item { IsItem item }
        requires within { event < length self.old.items.items }
    {
        self.items[event] = item;
    }

    fn is_of(&self, event: usize, id: ClipId) -> bool {
        event < self.items.len() && self.items[event].id == id
    }
}

impl Source for NamedEvents {
    ghost use Rattle.vdcp_journal_file.specs.Named as named;

    ghost items = { named.items_of };

    ghost countable = { named.countable };

    ghost of_bytes = { named.of_bytes };

    fn len(&self) -> usize {
        self.items.len()
    }

    fn at(&self, k: usize) -> Item {
        self.items[k]
    }
}

/// Refuses a row that no controller of a list writes there, and a part that isn't lawful at the rate.
pub(crate) fn events_in<I: io::Read + Drop>(
    alloc: Global,
    rate: Rate,
    reader: I,
) -> Result<NamedEvents, Refusal> {
    let Ok(mut lines) = WholeLines::new(alloc, reader) else {
        return Err(Refusal::Memory);
    };
    match events_named(alloc, rate, &mut lines) {
        Ok(events) => Ok(events),
        Err(refusal) => Err(refusal_of(lines.long_line(), refusal)),
    }
}

fn events_named<I: io::Read + Drop>(
    alloc: Global,
    rate: Rate,
    lines: I,
) -> Result<NamedEvents, Refusal> {
    let mut rows = match JournalRows::begin(alloc, lines) {
        Ok(rows) => rows,
        Err(fault) => return Err(read_refusal(fault)),
    };
    let mut named = NamedEvents::new(alloc);
    let mut place = Place {
        event: 0,
        is_checked: false,
    };
    for read in 0..usize::MAX - 1 {
        let row = match rows.next_row() {
            Ok(Some(row)) => row,
            Ok(None) => return Ok(named),
            Err(fault) => return Err(read_refusal(fault)),
        };
        place.follow(&row.note);
        if place.event > MAX_ROWS {
            return Err(Refusal::Row(read + 2, JournalFault::Event));
        }
        match add_named(&mut named, place.event, rate, &row.note) {
            Ok(()) => {}
            Err(NamingFault::Time) => return Err(Refusal::Row(read + 2, JournalFault::Time)),
            Err(NamingFault::Memory) => return Err(Refusal::Memory),
        }
    }
    Err(Refusal::Read)
}

#[derive(Clone, Copy)]
struct Place {
    // The event that commands are about.
    event: usize,
    // Whether it was asked which clip plays: the next event follows then.
    is_checked: bool,
}

impl Place {
    fn follow(&mut self, note: &Note)
        ensures event { self.new.event ≡ event_after self.old.event self.old.is_checked note.now }
        ensures checked { self.new.is_checked ≡ checked_after self.old.is_checked note.now }
    {
        match note {
            Note::From(event) | Note::Left(event) => {
                *self = Place {
                    event: *event,
                    is_checked: false,
                };
            }
            Note::Sent(Command::ActiveId) => self.is_checked = true,
            Note::Sent(Command::IdRequest(_)) if self.is_checked => {
                *self = Place {
                    event: self.event.saturating_add(1),
                    is_checked: false,
                };
            }
            _ => {}
        }
    }
}

enum NamingFault {
    // A part isn't lawful at the rate.
    Time,
    Memory,
}

fn add_named(
    named: &mut NamedEvents,
    event: usize,
    rate: Rate,
    note: &Note,
) -> Result<(), NamingFault> {
    let added = match note {
        Note::From(_) | Note::Left(_) => named.extend(event),
        Note::Sent(Command::IdRequest(id)) if !named.is_of(event, *id) => {
            named.set(event, whole(*id))
        }
        Note::Sent(Command::PlayCue(id)) => named.set(event, whole(*id)),
        Note::Sent(Command::CueData(id, start, duration)) => {
            let Some(part) = part_of(rate, *start, *duration) else {
                return Err(NamingFault::Time);
            };
            let item = Item {
                id: *id,
                part: Some(part),
            };
            named.set(event, item)
        }
        _ => Ok(()),
    };
    match added {
        Ok(()) => Ok(()),
        Err(_) => Err(NamingFault::Memory),
    }
}

fn whole(id: ClipId) -> Item
    ensures { IsItem result }
{
    Item { id, part: None }
}

fn part_of(rate: Rate, start: [u8; 4], duration: [u8; 4]) -> Option<Part>
    ensures { IfSome result IsPart }
{
    a_time_code_has_lawful_bytes();
    let (Ok(_), Ok(_)) = (
        Timecode::from_bcd(rate, start),
        Timecode::from_bcd(rate, duration),
    ) else {
        return None;
    };
    Some(Part { start, duration })
}

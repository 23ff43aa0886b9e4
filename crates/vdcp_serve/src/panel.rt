//! What the page of a port shows.
ghost use Rattle.circular_buffer.specs.Buffer.{buffer};
ghost use Rattle.std.specs.Prelude.{◌≡◌, ℕ, [], IfOk, None, map, string_bytes};
ghost use Rattle.serde_json.specs.Data.{array};
ghost use Rattle.serde_json.specs.View.{items_of, view};
ghost use Rattle.vdcp_text.specs.Items.{item_text};
ghost use Rattle.vdcp_serve.specs.Panel.{Answers, IsNewPage, Shows, access_text, airing_data, from_data, noting, seen_data, slot_data};

use crate::page::PAGE;
use circular_buffer::HeapCircularBuffer;
use serde_json::{Value, json};
use std::alloc::{AllocError, Global};
use std::net::SocketAddr;
use std::rt::Clock;
use vdcp_panel::{Calls, Panel, View, milliseconds};
use vdcp_port::{Access, Catalogue, Clip, Kept, Port};
use vdcp_text::ItemText;
use vdcp_value::{Item, Rate};

// How many of the items that went to air last are shown.
const MOST_AIRED: usize = 50;

#[derive(Clone, Copy, Debug)]
pub struct Airing {
    /// Counted from 0.
    pub number: u64,
    pub item: Item,
    /// In milliseconds since 1970.
    pub at: u64,
}

/// What is shown of a port.
#[derive(Drop)]
pub struct PortSeen {
    rate: Rate,
    kept: Kept,
    state: u8,
    /// The items that went to air last, in order.
    aired: HeapCircularBuffer<Airing>,
    /// The address that is connected, if one is.
    from: Option<SocketAddr>,
}

#[derive(Clone, Copy)]
pub struct PortView<'a> {
    page: &'static str,
    seen: &'a PortSeen,
}

#[derive(Drop)]
pub struct PortPanel<'a, R: Clock> {
    rt: &'a R,
    panel: Panel,
    seen: PortSeen,
}

impl<'a, R: Clock + AllocGlobal> PortPanel<'a, R> {
    pub fn new<C: Catalogue>(
        rt: &'a R,
        panel: Panel,
        rate: Rate,
        port: &Port<C>,
    ) -> Result<Self, AllocError>
        ensures { IfOk result (IsNewPage rate port.now) }
    {
        Ok(PortPanel {
            rt,
            panel,
            seen: PortSeen {
                rate,
                kept: port.kept(),
                state: port.status_byte(),
                aired: HeapCircularBuffer::with_capacity(rt.alloc(), MOST_AIRED)?,
                from: None,
            },
        })
    }

    /// Notes which address drives the port now, if one does.
    pub fn connected(&mut self, from: Option<SocketAddr>)
        ensures { self.new ≡ record self.old { seen = record self.old.seen { from = from } } }
    {
        self.seen.from = from;
    }

    /// An item has gone to air: `number` counts these from 0 over all connections.
    pub fn note(&mut self, number: u64, item: Item)
        ensures { (at : ℕ) × (self.new ≡ noting (record { number = number; item = item; at = at }) self.old) }
    {
        let at = milliseconds(self.rt);
        let _ = self.seen.aired.push_back(Airing { number, item, at });
    }

    /// Answers requests for the page by the port as it is now.
    pub fn show<C: Catalogue>(&mut self, port: &Port<C>)
        ensures shows { Shows port.now self.old self.new }
        ensures answers { Answers self.old.panel.names self.new.seen }
    {
        self.seen.kept = port.kept();
        self.seen.state = port.status_byte();
        let view = PortView {
            page: PAGE,
            seen: &self.seen,
        };
        let mut calls = Calls::new();
        self.panel.serve_some(self.rt, &view, &mut calls);
    }
}

impl View for PortView<'_> {
    ghost use Rattle.std.specs.Prelude.{None};
    ghost use Rattle.vdcp_serve.specs.Panel.{page_bytes, state_bytes};

    ghost page_bytes = { page_bytes };

    ghost state_bytes = { state_bytes };

    ghost about = { λ _. None };

    fn page(&self) -> &'static str {
        self.page
    }

    #[tactic(auto, using(crate::proofs::Showing::seen_whole))]
    fn state(&self, alloc: Global) -> Result<String, AllocError> {
        self.seen.value(alloc)?.to_string(alloc)
    }

    fn event(&self) -> Option<u64> {
        None
    }
}

impl PortSeen {
    fn value(&self, alloc: Global) -> Result<Value, AllocError>
        ensures { IfOk result (λ v. view v ≡ seen_data self.now) }
    {
        json!(in alloc; {
            "access": access_text(self.kept.access),
            "aired": rows_of(alloc, self.rate, &self.aired)?,
            "cued": slot(alloc, self.rate, &self.kept.cued)?,
            "from": address_or_null(alloc, self.from)?,
            "number": self.kept.number,
            "playing": slot(alloc, self.rate, &self.kept.playing)?,
            "rate": self.rate.frames_per_second(),
            "state": self.state,
            "unit": self.kept.unit
        })
    }
}

fn access_text(access: Access) -> &'static str
    ensures { result.now ≡ access_text access }
{
    match access {
        Access::Closed => "closed",
        Access::Open => "open",
        Access::Selected => "selected",
    }
}

fn address_or_null(alloc: Global, address: Option<SocketAddr>) -> Result<Value, AllocError>
    ensures { IfOk result (λ v. view v ≡ from_data address) }
{
    let Some(address) = address else {
        return Ok(Value::Null);
    };
    let text = format!(in alloc; "{address}")?;
    Value::try_from_str(alloc, text.as_str())
}

fn slot(alloc: Global, rate: Rate, clip: &Option<Clip>) -> Result<Value, AllocError>
    ensures { IfOk result (λ v. view v ≡ slot_data rate clip.now) }
{
    let Some(clip) = clip else {
        return Ok(Value::Null);
    };
    let item = text_of(alloc, rate, clip.item)?;
    json!(in alloc; {"item": item.as_str(), "left": clip.left})
}

fn rows_of(
    alloc: Global,
    rate: Rate,
    aired: &HeapCircularBuffer<Airing>,
) -> Result<Value, AllocError>
    ensures { IfOk result (λ v. view v ≡ array (items_of (map (airing_data rate) aired.now.items))) }
{
    let last = aired.to_vec(alloc)?;
    let mut rows = Vec::new(alloc);
    for k in 0..last.len() {
        let row = row_of(alloc, rate, &last[k])?;
        rows.push(row)?;
    }
    Ok(Value::Array(rows))
}

fn row_of(alloc: Global, rate: Rate, airing: &Airing) -> Result<Value, AllocError>
    ensures { IfOk result (λ v. view v ≡ airing_data rate airing.now) }
{
    let item = text_of(alloc, rate, airing.item)?;
    json!(in alloc; {"at": airing.at, "item": item.as_str(), "number": airing.number})
}

fn text_of(alloc: Global, rate: Rate, item: Item) -> Result<String, AllocError>
    ensures { IfOk result (λ text. string_bytes text ≡ item_text rate item) }
{
    let item = ItemText { rate, item };
    format!(in alloc; "{item}")
}

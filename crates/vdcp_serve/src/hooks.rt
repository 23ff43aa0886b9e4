//! What takes part in a server's turns: time, the log and the page.
ghost use Rattle.std.specs.Prelude.{◌≡◌, false, Some};
ghost use Rattle.vdcp_serve.specs.Panel.{NotesOn, counted_on};
ghost use Rattle.vdcp_serve.specs.Stay.{Looks, driven};

use crate::panel::PortPanel;
use crate::timing::Timing;
use std::io;
use std::net::SocketAddr;
use std::rt::Clock;
use vdcp_drive::{DriveFault, Due, ServerHooks, Turned};
use vdcp_log::Log;
use vdcp_port::{Catalogue, Port};
use vdcp_text::ItemText;
use vdcp_value::{Item, Rate};

#[derive(Drop)]
pub struct Hooks<'a, R: Clock, L: io::Write> {
    pub timing: Timing<'a, R>,
    log: &'a Log<L>,
    rate: Rate,
    aired: u64,
    panel: Option<PortPanel<'a, R>>,
}

impl<'a, R: Clock + AllocGlobal, L: io::Write + Drop> Hooks<'a, R, L> {
    pub fn new(rt: &'a R, log: &'a Log<L>, rate: Rate, panel: Option<PortPanel<'a, R>>) -> Self
        ensures patient { result.timing.patience.gives_up ≡ false }
        ensures none_aired { result.aired ≡ 0 }
        ensures page { result.panel ≡ panel.entry }
    {
        Hooks {
            timing: Timing::new(rt),
            log,
            rate,
            aired: 0,
            panel,
        }
    }

    pub fn connected(&mut self, from: Option<SocketAddr>)
        ensures { self.new ≡ driven from self.old }
    {
        if let Some(panel) = &mut self.panel {
            panel.connected(from);
        }
    }

    /// Shows the port as it is now, and notes what went to air.
    pub fn show<C: Catalogue>(&mut self, port: &Port<C>, aired: Option<Item>)
        ensures timing { self.new.timing ≡ self.old.timing }
        ensures looks { Looks port.now aired self.old self.new }
    {
        if let Some(item) = aired {
            self.note(item);
        }
        if let Some(panel) = &mut self.panel {
            panel.show(port);
        }
    }

    fn note(&mut self, item: Item)
        ensures noted { NotesOn (Some item) self.old.aired self.old.panel self.new.panel }
        ensures counted { self.new.aired ≡ counted_on (Some item) self.old.aired }
        ensures rest { self.new ≡ record self.old { aired = self.new.aired; panel = self.new.panel } }
    {
        let (number, rate) = (self.aired, self.rate);
        self.aired = number.saturating_add(1);
        let text = ItemText { rate, item };
        self.log.tell(&format_args!("aired {number} {text}"));
        if let Some(panel) = &mut self.panel {
            panel.note(number, item);
        }
    }
}

impl<C: Catalogue, R: Clock + AllocGlobal, L: io::Write + Drop> ServerHooks<C> for Hooks<'_, R, L> {
    ghost use Rattle.vdcp_serve.specs.Stay.{HooksDo};

    ghost does = { HooksDo };

    fn due(&mut self) -> Due {
        self.timing.due()
    }

    fn look(&mut self, port: &Port<C>, aired: Option<Item>, turned: Result<Turned, DriveFault>) {
        self.timing.note(turned);
        self.show(port, aired);
    }
}

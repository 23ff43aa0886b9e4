//! What takes part in a server's turns beside its wire: it says what is due, and looks on.
ghost use Rattle.std.specs.Prelude.{◌≡◌};
ghost use Rattle.vdcp_drive.specs.Turns.{closes};

use crate::line::DriveFault;
use vdcp_port::{Catalogue, Port};
use vdcp_value::Item;
use vdcp_wire::Came;

/// What a server does next.
#[derive(Clone, Copy, Debug, PartialEq, Eq)]
pub enum Due {
    Listen,
    /// A frame is over, and passes at the port.
    Frame,
    GiveUp,
}

/// What a server did in a turn.
#[derive(Clone, Copy, Debug, PartialEq, Eq)]
pub enum Turned {
    Listen(Came),
    Frame,
}

impl Turned {
    pub fn closes(self) -> bool
        ensures { result ≡ closes self }
    {
        matches!(self, Turned::Listen(Came::Closed))
    }
}

pub trait ServerHooks<C: Catalogue> {
    ghost use Rattle.std.specs.Prelude.{◌≡◌, ◌≢◌, Bool, true};
    ghost use Rattle.vdcp_drive.specs.Serving.{HookStep, asked, lent};
    ghost use Rattle.vdcp_drive.specs.declared.server_hooks.Due.TheVariants as due;

    /// From one of its states to the next it takes this step.
    ghost does: { HookStep → Self → Self → Type 0 } = { λ _ _ _. Unit {0} };

    /// Whether it can make frames pass, or give the line up.
    ghost can_act: { Bool } = { true };

    /// Says what is due at the beginning of each turn. It may wait before.
    fn due(&mut self) -> Due
        ensures answers { does (asked result) self.old self.new }
        ensures acts { result ≢ due.Listen → can_act ≡ true };

    /// Looks on after each turn. `turned` says what the turn was, or that the wire failed in it.
    fn look(&mut self, port: &Port<C>, aired: Option<Item>, turned: Result<Turned, DriveFault>)
        ensures { does (lent (record { port = port.now; aired = aired; turned = turned })) self.old self.new };
}

/// Watches nothing, lets no frame pass and doesn't give up.
#[derive(Drop)]
pub struct Unwatched;

impl<C: Catalogue> ServerHooks<C> for Unwatched {
    ghost use Rattle.std.specs.Prelude.{false};

    ghost can_act = { false };

    fn due(&mut self) -> Due {
        Due::Listen
    }

    fn look(
        &mut self,
        _port: &Port<C>,
        _aired: Option<Item>,
        _turned: Result<Turned, DriveFault>,
    ) {}
}

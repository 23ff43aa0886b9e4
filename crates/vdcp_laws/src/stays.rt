//! The law of a port that outlives its connections, as that of `serve --stay` does.
ghost use Rattle.std.specs.Prelude.{ℕ, ◌≡◌, [], Option, Result, true};
ghost use Rattle.std.specs.declared.net.SocketAddr.{SocketAddr};
ghost use Rattle.vdcp_drive.specs.declared.line.DriveFault.{DriveFault};
ghost use Rattle.vdcp_drive.specs.declared.line.TurnsEnd.{TurnsEnd};
ghost use Rattle.vdcp_laws.specs.Servers.{ServesOn};
ghost use Rattle.vdcp_laws.specs.Stays.{HasServedEach};
ghost use Rattle.vdcp_laws.specs.TwoEnds.{Ends};
ghost use Rattle.vdcp_log.specs.declared.log.Logged.{Logged as Line};
ghost use Rattle.vdcp_port.specs.Clock.{ClockedPort};
ghost use Rattle.vdcp_serve.specs.Serve.{IsTaken, LineDoes, line_failures};
ghost use Rattle.vdcp_serve.specs.Stay.{HooksDo, IsKept, IsServed};
ghost use Rattle.vdcp_serve.specs.declared.hooks.Hooks.{Hooks as Hooked};
ghost use Rattle.vdcp_serve.specs.declared.serve.ServeSettings.{ServeSettings};
ghost use Rattle.vdcp_wire.specs.Streams.{Streamed};

use crate::serve_calls::what_is_left_is_served;
use std::io;
use std::rt::Clock;
use vdcp_log::Logged;
use vdcp_port::Catalogue;
use vdcp_serve::Hooks;
use vdcp_wire::{Duplex, StreamWire};

/// A port that `do_serve` kept (`IsKept`) was served over one connection after another, each of which found it as the one before
/// had left it, but for frames that passed since (`the_same` of `Finds`). If messages are heard at once, what was done over each
/// is what the laws of both ends take of a server that begins with the port as it was found (`serves`), and leaves the next one.
pub fn a_kept_port_goes_on<
    'a,
    C: Catalogue,
    S: Duplex + Drop,
    R: Clock + AllocGlobal + 'a,
    L: io::Write + Drop + 'a,
>()
    ensures connections { (settings : ServeSettings) (port now : ClockedPort) (left : ℕ) (first h : Hooked R L) →
        IsKept (LineDoes {L = L}) line_failures (IsTaken S.ahead S.written settings) settings port first now left h →
        HasServedEach R L S.ahead S.written settings port now }
    ensures serves { (settings : ServeSettings) (turns : ℕ) (port port' : ClockedPort) (line : Line Streamed L)
        (from : Option SocketAddr) (h h' : Hooked R L) (answer : Result TurnsEnd DriveFault) (e : Ends) →
        settings.by_clock ≡ true → IsTaken S.ahead S.written settings line → e.port ≡ port → e.downs ≡ [] →
        (s : IsServed LineDoes line_failures settings turns port line from h port' answer h') →
        ServesOn LineDoes true HooksDo e s.old s.new s.begun s.ended }
{
    what_is_left_is_served::<C, Logged<'a, StreamWire<S>, L>, Hooks<'a, R, L>>();
}

//! A port that is kept from one connection to the next.
ghost use Rattle.std.specs.Prelude.{◌≡◌, IfOk};
ghost use Rattle.vdcp_serve.specs.Stay.{IsKept, IsServed, hearing_of};

use crate::hooks::Hooks;
use crate::serve::ServeSettings;
use std::io;
use std::net::SocketAddr;
use std::rt::Clock;
use vdcp_drive::{DriveFault, Hearing, Server, TurnsEnd};
use vdcp_port::{Catalogue, Port};
use vdcp_wire::{Wire, WireFault};

#[derive(Drop)]
pub enum Coming<W> {
    Nobody,
    /// The line of a new connection failed at once.
    Failed,
    /// The line, and the address at its other end.
    Line(W, SocketAddr),
}

/// Connections, one after another. Those that come meanwhile wait.
pub trait Connections<W: Wire> {
    ghost use Rattle.std.specs.Prelude.{◌≡◌, IfOk};
    ghost use Rattle.vdcp_serve.specs.Stay.{IfLine};
    ghost use Rattle.vdcp_serve.specs.declared.serve.ServeSettings.{ServeSettings};

    /// With which settings lines are made.
    ghost made_with: { Self → ServeSettings };

    /// What a line is that comes.
    ghost is_line: { ServeSettings → W → Type 0 };

    /// Waits for the next line, no longer than a silence or, by the clock, a frame.
    fn wait(&mut self) -> Result<Coming<W>, WireFault>
        ensures works { IfOk result (λ coming. IfLine coming (λ line. W.failures line ≡ 0)) }
        ensures comes { IfOk result (λ coming. IfLine coming (is_line (made_with self.old))) }
        ensures keeps { made_with self.new ≡ made_with self.old };

    /// Is told how the last connection ended, also that it failed or couldn't be a line.
    fn tell_end(&mut self, end: Result<TurnsEnd, DriveFault>)
        ensures keeps { made_with self.new ≡ made_with self.old };
}

/// Serves a port over one line after another, for `turns` of the settings in all, each a wait for a line, a listen or a
/// frame. While there is no line a frame passes at each wait. A line ends if the other end closes it, if nothing comes for
/// too long, and if it fails; the port stays as it is. A line that waited while an idle one was given up gets one listen, and
/// is given up if that is in vain. The fault is that nobody can be waited for.
pub fn stay<
    C: Catalogue + Drop,
    W: Wire + Drop,
    D: Connections<W>,
    R: Clock + AllocGlobal,
    L: io::Write + Drop,
>(
    port: Port<C>,
    connections: &mut D,
    settings: ServeSettings,
    hooks: &mut Hooks<'_, R, L>,
) -> Result<Port<C>, WireFault>
    requires { D.made_with connections.old ≡ settings }
    ensures { IfOk result (λ kept. IsKept W.does W.failures (D.is_line settings) settings port hooks.old kept 0 hooks.new) }
{
    let mut port = port;
    let mut left = u64::from(settings.turns);
    'turns: while left > 0 {
        left -= 1;
        let end = match connections.wait()? {
            Coming::Nobody => {
                hooks.timing.miss_line();
                port.frame();
                hooks.show(&port, None);
                continue;
            }
            Coming::Failed => {
                hooks.timing.miss_line();
                Err(DriveFault::Device)
            }
            Coming::Line(line, from) => {
                let (rest, end) = serve_over(port, line, Some(from), settings, left, hooks);
                port = rest;
                left = left.saturating_sub(hooks.timing.turns());
                end
            }
        };
        connections.tell_end(end);
    }
    Ok(port)
}

/// Serves a port over a line, for at most this many turns, and gives the port as it is then.
pub fn serve_over<C: Catalogue + Drop, W: Wire + Drop, R: Clock + AllocGlobal, L: io::Write + Drop>(
    port: Port<C>,
    line: W,
    from: Option<SocketAddr>,
    settings: ServeSettings,
    turns: u64,
    hooks: &mut Hooks<'_, R, L>,
) -> (Port<C>, Result<TurnsEnd, DriveFault>)
    requires { W.failures line ≡ 0 }
    ensures { IsServed W.does W.failures settings turns port line from hooks.old result.0 result.1 hooks.new }
{
    hooks.connected(from);
    hooks.timing.begin_line(settings);
    let mut server = Server::with_hearing(port, hearing_of(settings), line);
    let end = server.serve(turns, hooks);
    let (port, _) = server.into_parts();
    hooks.connected(None);
    (port, end)
}

pub fn hearing_of(settings: ServeSettings) -> Hearing
    ensures { result ≡ hearing_of settings }
{
    if settings.by_clock {
        Hearing::AtOnce
    } else {
        Hearing::AtSilences
    }
}

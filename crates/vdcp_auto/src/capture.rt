//! What a captured line shows, and the exchanges in it.
ghost use Rattle.std.specs.Option.{option_to_list};
ghost use Rattle.std.specs.Prelude.{◌≡◌, ◌∷◌, ◌++◌, List};
ghost use Rattle.vdcp_auto.specs.Captures.{awaited_after, ended_at, exchanges_from};
ghost use Rattle.vdcp_auto.specs.declared.capture.Captured.{Captured};

use crate::exchange::{Exchange, Heard};
use crate::meaning::is_end;
use crate::phase::Mode;
use vdcp_words::Command;

#[derive(Clone, Copy, Debug, PartialEq, Eq)]
pub enum Captured {
    Sent(Command),
    Came(Heard),
    /// Nothing came for so long that the automation waited no longer.
    Silence,
}

/// Gives the exchange that `next` ends, if it ends one. `awaited` is the command whose exchange goes on; if one still
/// goes on when the capture ends, nothing was heard for it.
pub fn exchange_ended(
    mode: Mode,
    awaited: &mut Option<Command>,
    next: &Captured,
) -> Option<Exchange>
    ensures ended { result ≡ ended_at mode awaited.old next.now }
    ensures awaited { awaited.new ≡ awaited_after mode awaited.old next.now }
    ensures more { (more : List Captured) → exchanges_from mode awaited.old (next.now ∷ more)
        ≡ option_to_list result ++ exchanges_from mode awaited.new more }
{
    let sent = match next {
        Captured::Sent(command) => Some(*command),
        Captured::Came(_) | Captured::Silence => None,
    };
    let Some(command) = *awaited else {
        *awaited = sent;
        return None;
    };
    let heard = match next {
        Captured::Came(heard) if !is_end(mode, &command, &Some(*heard)) => return None,
        Captured::Came(heard) => Some(*heard),
        Captured::Sent(_) | Captured::Silence => None,
    };
    *awaited = sent;
    Some(Exchange { command, heard })
}

//! The law by which what a server's call leaves is what the laws of both ends take of a server.
ghost use Rattle.std.specs.Prelude.{ℕ, ◌≡◌, ◌++◌, [], List, Result};
ghost use Rattle.vdcp_frame.specs.Progress.{reading};
ghost use Rattle.vdcp_drive.specs.ServeLeaves.{HasServed, ServeLeaves};
ghost use Rattle.vdcp_drive.specs.ServerEars.{HasRead, new_ear};
ghost use Rattle.vdcp_drive.specs.Serving.{Serving};
ghost use Rattle.vdcp_drive.specs.Steps.{Chain};
ghost use Rattle.vdcp_drive.specs.Turns.{Turn};
ghost use Rattle.vdcp_drive.specs.declared.hearing.Hearing.{Hearing};
ghost use Rattle.vdcp_drive.specs.declared.line.DriveFault.{DriveFault};
ghost use Rattle.vdcp_drive.specs.declared.line.TurnsEnd.{TurnsEnd};
ghost use Rattle.vdcp_laws.specs.Carried.{all_turns};
ghost use Rattle.vdcp_laws.specs.Servers.{ServesOn};
ghost use Rattle.vdcp_laws.specs.TwoEnds.{Ends, port_now, server_now};
ghost use Rattle.vdcp_laws.specs.Untorn.{AreUntorn, at_once_for, server_at_silences};

use crate::two_ends::what_is_below;
use vdcp_drive::ServerHooks;
use vdcp_port::Catalogue;
use vdcp_wire::Wire;

/// What `Server::serve` leaves is what the laws of both ends take of a server (`IsServed`), with the port and the items that
/// it leaves, if it hears at once (`prompt`), or at silences none of which tears a command (`untorn`, of what `serves` of
/// `ServeLeaves` gives). It goes on from these ends, or has just begun (`new`). If the wire failed in the answer to a message,
/// the law takes what came behind that message as lost.
pub fn what_is_left_is_served<C: Catalogue, B: Wire, H: ServerHooks<C>>()
    ensures new { (hearing : Hearing) → HasRead hearing (new_ear hearing) (reading 0 []) }
    ensures prompt { (e : Ends) (count : ℕ) (server server' : Serving B) (h h' : H) (result : Result TurnsEnd DriveFault) →
        B.failures server.wire ≡ 0 → server.hearing ≡ Hearing.AtOnce → server.port ≡ port_now e →
        HasRead server.hearing (server_now e).ear server.reader →
        ServeLeaves B.does H.can_act (λ steps. Chain H.does steps h h') B.failures count server server' result →
        ServesOn B.does H.can_act H.does e server server' h h' }
    ensures untorn { (e : Ends) (before : List Turn) (count : ℕ) (server server' : Serving B) (h h' : H)
        (result : Result TurnsEnd DriveFault) → e.downs ≡ at_once_for before →
        (s : HasServed B.does H.can_act (λ steps. Chain H.does steps h h') count (server_at_silences e.port before) server server'
        result) → AreUntorn [] (before ++ all_turns s.turns s.done) → ServesOn B.does H.can_act H.does e server server' h h' }
{
    what_is_below();
    vdcp_frame::laws::written_is_read();
    vdcp_frame::laws::one_reading();
    vdcp_frame::laws::one_spelling();
    vdcp_frame::laws::a_spelling_is_its_message();
    vdcp_frame::laws::what_is_fed_is_followed();
    vdcp_drive::laws::servers_go_on();
}

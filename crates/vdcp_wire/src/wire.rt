//! The wire as a trait, and what a listen brings.
use thiserror::Error;

/// How many bytes one `listen` gives at most.
pub const PIECE: usize = 512;

#[derive(Clone, Copy, Debug, PartialEq, Eq, Error)]
#[error("the line failed")]
pub struct WireFault;

#[derive(Clone, Copy, Debug, PartialEq, Eq)]
pub enum Came {
    /// This many bytes, 0 to `PIECE`, at the front of the buffer.
    Bytes(usize),
    /// Nothing came for the time that ends a burst.
    Silence,
    Closed,
}

/// Carries bytes to the other end and back. A wire that has failed isn't called again.
pub trait Wire {
    ghost use Rattle.std.specs.Prelude.{◌≡◌, ◌≤◌, ℕ, OnOk, OnErr, IfOk, Option};
    ghost use Rattle.vdcp_wire.specs.Acts.{Act, sends, brings, drops, fails, OfFront, Tells};
    ghost use Rattle.vdcp_wire.specs.Wires.{Told, arrival_of, adds_sent, adds_came, adds_drop, MayCome, SendsFront, FitsBuffer};

    ghost does: { Act → Self → Self → Type 0 };

    /// What went out, what came, and where waiting bytes were dropped, if the wire tells it.
    ghost told: { Self → Option Told };

    /// How often it failed: 0 or 1.
    ghost failures: { Self → ℕ };

    /// If it fails, a beginning of the bytes was sent.
    fn send(&mut self, bytes: &[u8]) -> Result<(), WireFault>
        requires { failures self.old ≡ 0 }
        ensures sends { OnOk result (does (sends bytes.now) self.old self.new) }
        ensures sends_some { OnErr result (OfFront bytes.now (λ front. does (sends front) self.old self.new)) }
        ensures sent { OnOk result (told self.new ≡ adds_sent bytes.now (told self.old)) }
        ensures front { OnErr result (SendsFront bytes.now (told self.old) (told self.new)) }
        ensures works { OnOk result (failures self.new ≡ 0) }
        ensures failed { OnErr result (failures self.new ≡ 1) };

    /// Waits for bytes, a silence or the close, after which it gives only that. If it fails, nothing is taken.
    fn listen(&mut self, buffer: &mut [u8; PIECE]) -> Result<Came, WireFault>
        requires { failures self.old ≡ 0 }
        ensures fits { IfOk result FitsBuffer }
        ensures brings { IfOk result (λ c. does (brings (arrival_of c buffer.new)) self.old self.new) }
        ensures fails { OnErr result (does fails self.old self.new) }
        ensures came { IfOk result (λ c. told self.new ≡ adds_came (arrival_of c buffer.new) (told self.old)) }
        ensures may_come { IfOk result (λ c. MayCome (arrival_of c buffer.new) (told self.old)) }
        ensures kept { OnErr result (told self.new ≡ told self.old) }
        ensures works { OnOk result (failures self.new ≡ 0) }
        ensures failed { OnErr result (failures self.new ≡ 1) };

    /// Drops the bytes that wait. A call that fails counts as no drop, though some of them may be gone.
    fn drop_waiting(&mut self) -> Result<(), WireFault>
        requires { failures self.old ≡ 0 }
        ensures drops { OnOk result (does drops self.old self.new) }
        ensures fails { OnErr result (does fails self.old self.new) }
        ensures dropped { OnOk result (told self.new ≡ adds_drop (told self.old)) }
        ensures kept { OnErr result (told self.new ≡ told self.old) }
        ensures works { OnOk result (failures self.new ≡ 0) }
        ensures failed { OnErr result (failures self.new ≡ 1) };

    ghost fails_once: { (wire : Self) → failures wire ≤ 1 };

    ghost tells: { (act : Act) (old new : Self) → does act old new → Tells act (told old) (told new) };
}

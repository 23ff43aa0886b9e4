//! What a panel shows, as a trait.
use std::alloc::{AllocError, Global};
use std::rt::Clock;

/// A page that stays, and a state that it follows.
pub trait View {
    ghost use Rattle.std.specs.Prelude.{◌≡◌, ℕ, IfOk, List, Option, string_bytes};

    ghost page_bytes: { Self → List ℕ };

    ghost state_bytes: { Self → List ℕ };

    ghost about: { Self → Option ℕ };

    /// In HTML.
    fn page(&self) -> &'static str
        ensures { result.now ≡ page_bytes self.now };

    /// In JSON.
    fn state(&self, alloc: Global) -> Result<String, AllocError>
        ensures { IfOk result (λ text. string_bytes text ≡ state_bytes self.now) };

    /// The number of the event that a call is about; None if no call is taken.
    fn event(&self) -> Option<u64>
        ensures { result ≡ about self.now };
}

/// Milliseconds since 1970, or 0 if the clock can't be read.
pub fn milliseconds<R: Clock>(clock: &R) -> u64 {
    match clock.since_1970() {
        Ok(time) => u64::try_from(time.as_millis()).unwrap_or(u64::MAX),
        Err(_) => 0,
    }
}

//! The digest of a list, by which a journal knows it again.
ghost use Rattle.sha2.specs.Sha256.{sha256};
ghost use Rattle.std.specs.Prelude.{◌≡◌, ◌≢◌, ◌↔◌, ℕ, Err, IfErr, IfOk, length};
ghost use Rattle.vdcp_list.specs.Asrun.{IsUnlawful, asrun_text};
ghost use Rattle.vdcp_list.specs.declared.faults.WriteFault.TheVariants.{Device, Time};

use sha2::{Digest, Sha256};
use std::alloc::Allocator;
use vdcp_auto::Source;
use vdcp_list::{WriteFault, write_asrun};
use vdcp_value::Rate;

/// The SHA-256 digest of a list's as-run list once all of it has aired, as `sha256sum` gives it of that file. The fault is
/// `Time` if a part isn't lawful at the rate, or `Memory`.
pub fn digest_of<A: Allocator, S: Source>(
    alloc: A,
    source: &S,
    rate: Rate,
) -> Result<[u8; 32], WriteFault>
    ensures unlawful { (k : ℕ) → (result ≡ Err (Time k))
        ↔ IsUnlawful rate (S.items source.now) (length (S.items source.now)) k }
    ensures refused { IfErr result (λ fault. fault ≢ Device) }
    ensures digest { IfOk result (λ digest. digest
        ≡ sha256 (asrun_text rate (S.items source.now) (length (S.items source.now)))) }
{
    let mut text = Vec::new(&alloc);
    match write_asrun(&alloc, source, rate, source.len(), &mut text) {
        Ok(()) => Ok(Sha256::digest(text.as_slice())),
        Err(WriteFault::Time(k)) => Err(WriteFault::Time(k)),
        Err(WriteFault::Memory) => Err(WriteFault::Memory),
        // (the text is written to memory)
        Err(WriteFault::Device) => Err(WriteFault::Memory),
    }
}

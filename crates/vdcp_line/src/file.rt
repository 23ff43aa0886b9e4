//! How a file that an argument names is opened.
ghost use Rattle.clap.specs.Matches.{first_value, found_of};
ghost use Rattle.std.specs.Prelude.{◌≡◌, ◌⊎◌, ◌++◌, ℕ, List, Some, IfOk, IfErr, codes};
ghost use Rattle.vdcp_text.specs.Failure.{failure_text};
ghost use Rattle.vdcp_text.specs.Text.{shown_name};
ghost use Rattle.vdcp_text.specs.declared.failure.Failure.TheVariants as failures;

use clap::ArgMatches;
use std::fs::File;
use std::io;
use std::rt::Files;
use vdcp_files::NamedFile;
use vdcp_text::Failure;

/// Opens the file that this argument names. The failure is `Memory` or `Open` of the name.
pub fn open_file<'a, R: Files<File = File>>(
    rt: &R,
    matches: &'a ArgMatches<'_>,
    argument: &str,
) -> Result<NamedFile<'a, File>, Failure<'a>>
    ensures named { (name : List ℕ) → first_value (found_of matches.now) argument.now ≡ Some name
        → IfOk result (λ input. input.name.now ≡ name) }
    ensures faults { (name : List ℕ) → first_value (found_of matches.now) argument.now ≡ Some name
        → IfErr result (λ failure. (failure ≡ Failure.Memory)
        ⊎ (failure_text failure ≡ shown_name name ++ codes ": cannot open")) }
{
    let name = matches.get_str(argument).unwrap_or("");
    match File::open(rt, name) {
        Ok(reader) => Ok(NamedFile { name, reader }),
        Err(error) if error.kind() == io::ErrorKind::OutOfMemory => Err(Failure::Memory),
        Err(_) => Err(Failure::Open(name)),
    }
}

//! How the script of `sim` is read.
ghost use Rattle.std.specs.Prelude.{◌≡◌, ◌≤◌, length, IfErr, IfOk, IfSome};
ghost use Rattle.vdcp_offline.specs.Sim.{IsScriptFailure, IsScriptOf};

use std::alloc::Global;
use std::{io, str};
use vdcp_files::NamedFile;
use vdcp_text::{Failure, ScriptLineFault};
use vdcp_world::{Event, ScriptFault, read_script};

pub fn read_events<'a, R: io::Read + Drop>(
    alloc: Global,
    script: NamedFile<'a, R>,
) -> Result<Vec<Event>, Failure<'a>>
    ensures few { IfOk result (λ events. length events.items ≤ 100000) }
    ensures script { IfOk result (λ events. IsScriptOf (R.remaining script.entry.reader) events.items) }
    ensures refused { IfErr result (IsScriptFailure script.entry.name) }
{
    let name = script.name;
    let bytes = script.read_lines(alloc)?;
    let Ok(text) = str::from_utf8(bytes.as_slice()) else {
        return Err(Failure::NotText(name));
    };
    read_script(alloc, text).map_err(|fault| script_failure(name, fault))
}

fn script_failure<'a>(name: &'a str, fault: ScriptFault) -> Failure<'a>
    ensures { IsScriptFailure name.entry result }
{
    match fault {
        ScriptFault::Word(line) => Failure::ScriptLine(name, line, ScriptLineFault::Word),
        ScriptFault::Number(line) => Failure::ScriptLine(name, line, ScriptLineFault::Number),
        ScriptFault::Hex(line) => Failure::ScriptLine(name, line, ScriptLineFault::Hex),
        ScriptFault::TooMany => Failure::TooManyEvents(name),
        ScriptFault::Memory => Failure::Memory,
    }
}

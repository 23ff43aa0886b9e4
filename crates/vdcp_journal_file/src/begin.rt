//! How a new journal is begun.
ghost use Rattle.std.specs.Prelude.{◌≡◌, ◌≤◌, IfErr, IfOk, option_map};
ghost use Rattle.vdcp_journal.specs.declared.row.Note.TheVariants as note;
ghost use Rattle.vdcp_journal_file.specs.Recording.{BeganWith, IsUnbegun};

use crate::file::{make, sync_folder};
use crate::recorder::Recorder;
use std::fs::{self, File};
use std::rt::{Clock, Files};
use vdcp_journal::{Heading, Note};
use vdcp_text::Failure;

/// Makes a journal with its first row, and the row of the event that the run begins with, if one is named. They are safe
/// then, and so is the file's name if the system can sync a folder.
///
/// The failure is `Exists` if a file has this name, which stays as it is, else `Open`, `InUse`, `Write` or `Memory`.
pub fn begin_journal<'a, 'r, R: Files<File = File> + Clock + AllocGlobal>(
    rt: &'r R,
    name: &'a str,
    heading: &Heading,
    from: Option<usize>,
) -> Result<Recorder<'a, 'r, R, File>, Failure<'a>>
    requires { heading.now.unit ≤ 15 }
    ensures begun { IfOk result (λ r. (r.name ≡ name.entry) × (r.unit ≡ heading.now.unit)) }
    ensures from { IfOk result (BeganWith (option_map note.From from)) }
    ensures unbegun { IfErr result (IsUnbegun name.entry) }
{
    let file = make(rt, name)?;
    match Recorder::begin(rt, name, heading, from.map(Note::From), file) {
        Ok(recorder) => {
            sync_folder(rt, name);
            Ok(recorder)
        }
        Err(failure) => {
            let _ = fs::remove_file(rt, name);
            Err(failure)
        }
    }
}

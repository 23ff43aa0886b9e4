//! Why the journal of a run isn't whole.
ghost use Rattle.std.specs.Prelude.{◌≡◌};
ghost use Rattle.vdcp_run.specs.Run.{journal_left};

use crate::settings::RunJournal;
use std::fmt;
use vdcp_journal_file::RecordFault;
use vdcp_text::{Failure, NameText};

#[derive(Clone, Copy)]
pub struct Lack<'a> {
    pub journal: &'a str,
    pub fault: RecordFault,
}

impl fmt::Display for Lack<'_> {
    fn fmt<W: fmt::Write>(&self, f: &mut fmt::Formatter<W>) -> fmt::Result {
        let journal = NameText(self.journal);
        match self.fault {
            RecordFault::Device => write!(f, "{}", Failure::Write(self.journal)),
            RecordFault::Memory => write!(f, "{}", Failure::Memory),
            RecordFault::Replaced => write!(f, "{journal}: not the file that was opened"),
        }
    }
}

/// The journal to go on from: None if it isn't under its name any more.
pub fn journal_left<'a>(
    lack: Option<Lack<'_>>,
    journal: Option<RunJournal<'a>>,
) -> Option<RunJournal<'a>>
    ensures { result ≡ journal_left lack.entry journal.entry }
{
    let is_gone = match lack {
        Some(lack) => lack.fault == RecordFault::Replaced,
        None => false,
    };
    if is_gone { None } else { journal }
}

//! A text that a file has.
ghost use Rattle.std.specs.Io.KnownBytes.{Appends};
ghost use Rattle.std.specs.Prelude.{◌≡◌, IfErr, IfOk, IfSome, OnOk};
ghost use Rattle.vdcp_run.specs.Run.{IsSaved, IsUnwritten};

use crate::place::not_made;
use std::rt::Files;
use std::{fs, io};
use vdcp_text::Failure;

/// Proof that the file of a name has a text. Only what finds it there, writes it there or renames its file makes one.
#[derive(Drop)]
pub struct SavedText<'a> {
    name: &'a str,
    text: Vec<u8>,
}

impl<'a> SavedText<'a> {
    /// None if the file has another text, or can't be read.
    pub fn find<R: Files + AllocGlobal>(rt: &R, name: &'a str, text: &[u8]) -> Option<Self>
        ensures { IfSome result (IsSaved name.entry text.now) }
    {
        match fs::metadata(rt, name) {
            Ok(found) if found.len() == text.len() as u64 => match fs::read(rt, name) {
                Ok(older) if older.as_slice() == text => Some(SavedText { name, text: older }),
                _ => None,
            },
            _ => None,
        }
    }

    /// Writes the text to what has the name, as a device.
    pub fn create<R: Files>(rt: &R, name: &'a str, text: Vec<u8>) -> Result<Self, Failure<'a>>
        ensures saved { IfOk result (IsSaved name.entry text.items) }
        ensures unwritten { IfErr result (IsUnwritten name.entry) }
    {
        match fs::create(rt, name) {
            Ok(mut file) => SavedText::write(name, &mut file, text),
            Err(error) => Err(not_made(&error, name)),
        }
    }

    fn write<W: io::Write>(name: &'a str, file: &mut W, text: Vec<u8>) -> Result<Self, Failure<'a>>
        ensures written { OnOk result (Appends (W.contents file.old) (W.contents file.new) text.items) }
        ensures saved { IfOk result (IsSaved name.entry text.items) }
        ensures failed { IfErr result (λ failure. failure ≡ Failure.Write name.entry) }
    {
        if file.write_all(text.as_slice()).is_err() || file.flush().is_err() {
            return Err(Failure::Write(name));
        }
        Ok(SavedText { name, text })
    }

    /// The file `beside` has the text, and gets the name `whole`.
    pub fn rename<R: Files>(
        rt: &R,
        name: &'a str,
        beside: &str,
        whole: &str,
        text: Vec<u8>,
    ) -> io::Result<Self>
        ensures { IfOk result (IsSaved name.entry text.items) }
    {
        fs::rename(rt, beside, whole)?;
        Ok(SavedText { name, text })
    }
}

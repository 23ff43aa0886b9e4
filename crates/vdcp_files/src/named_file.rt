//! A file's name with its reader, and the failure of a refused list.
ghost use Rattle.std.specs.Prelude.{◌≡◌, ◌≢◌, IfErr, IfOk, IfSome};
ghost use Rattle.vdcp_files.specs.Files.{IsUnread, RefusesCatalogue, RefusesList, file, file_failure};
ghost use Rattle.vdcp_list.specs.Catalogues.{IsCatalogueOf};
ghost use Rattle.vdcp_list.specs.List.{items_of};
ghost use Rattle.vdcp_list.specs.Playlists.{IsListOf};
ghost use Rattle.vdcp_text.specs.Failure.{status_of};

use crate::lines::{LONGEST_LINE, Lined, line_failure};
use std::alloc::Global;
use std::io::{self, Read};
use vdcp_list::{List, ListFault, Table, read_catalogue, read_list};
use vdcp_text::Failure;
use vdcp_value::Rate;

#[derive(Drop)]
pub struct NamedFile<'a, R> {
    pub name: &'a str,
    pub reader: R,
}

impl<'a, R: io::Read + Drop> NamedFile<'a, R> {
    /// Reads a playlist, at this rate. `Row`: a row is refused; `Read`: the file can't be read; `Memory`.
    pub fn read_list(self, alloc: Global, rate: Rate) -> Result<List, Failure<'a>>
        ensures events { IfOk result (λ events. IsListOf rate (R.remaining self.entry.reader) (items_of events)) }
        ensures refused { IfErr result (RefusesList rate (file self.entry.name (R.remaining self.entry.reader))) }
        ensures statuses { IfErr result (λ e. status_of e ≢ 2) }
    {
        match read_list(alloc, self.reader, rate) {
            Ok(events) => Ok(events),
            Err(fault) => Err(file_failure(self.name, fault)),
        }
    }

    /// Reads a catalogue, at this rate. `Row`: a row is refused; `Read`: the file can't be read; `Memory`.
    pub fn read_catalogue(self, alloc: Global, rate: Rate) -> Result<Table, Failure<'a>>
        ensures clips { IfOk result (IsCatalogueOf rate (R.remaining self.entry.reader)) }
        ensures refused { IfErr result (RefusesCatalogue rate (file self.entry.name (R.remaining self.entry.reader))) }
        ensures statuses { IfErr result (λ e. status_of e ≢ 2) }
    {
        match read_catalogue(alloc, self.reader, rate) {
            Ok(clips) => Ok(clips),
            Err(fault) => Err(file_failure(self.name, fault)),
        }
    }

    /// Reads lines of at most 64 KiB. `ScriptLine`: one has more; `Read`: the file can't be read; `Memory`.
    pub fn read_lines(self, alloc: Global) -> Result<Vec<u8>, Failure<'a>>
        ensures bytes { IfOk result (λ bytes. IfSome (R.remaining self.entry.reader) (λ known. known ≡ bytes.items)) }
        ensures refused { IfErr result (IsUnread self.entry.name) }
    {
        let NamedFile { name, reader } = self;
        let mut reader = Lined::new(reader, LONGEST_LINE);
        let mut bytes = Vec::new(alloc);
        match reader.read_to_end(&mut bytes) {
            Ok(_) => Ok(bytes),
            Err(error) => Err(line_failure(name, reader.number(), &error)),
        }
    }
}

pub fn file_failure<'a>(name: &'a str, fault: ListFault) -> Failure<'a>
    ensures { result ≡ file_failure name.entry fault }
{
    match fault {
        ListFault::Row(row, fault) => Failure::Row(name, row, fault),
        ListFault::Memory => Failure::Memory,
        ListFault::Read => Failure::Read(name),
    }
}

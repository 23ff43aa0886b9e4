//! The subcommand `probe`: rows are put to a server, one after another.
ghost use Rattle.std.specs.Prelude.{◌≡◌, ◌≤◌, IfOk, OnOk};

use crate::asking::Asker;
use crate::naming::Naming;
use crate::report::{Told, differing_in, write_counts, write_hints, write_told};
use crate::row::{Ask, Row};
use crate::settings::{Only, ProbeSettings};
use crate::table::rows;
use crate::walk::walk_row;
use std::alloc::Global;
use std::io;
use std::net::Net;
use std::rt::Clock;
use vdcp_files::NamedFile;
use vdcp_list::Table;
use vdcp_port::Catalogue;
use vdcp_text::{Failure, NameText};
use vdcp_value::ClipId;
use vdcp_wire::{Wire, address_of};

// How often a row that differs is put again, and how often that may be in vain: a server that is wrong in most rows isn't
// asked several times for all of them.
const MOST_AGAIN: u32 = 4;

const MOST_IN_VAIN: u32 = 8;

#[derive(Clone, Copy)]
enum ProbeFault<'a> {
    MayNotStop,
    FewClips(&'a str),
    Failed(Failure<'a>),
}

impl<'a> From<Failure<'a>> for ProbeFault<'a> {
    fn from(failure: Failure<'a>) -> Self {
        ProbeFault::Failed(failure)
    }
}

impl ProbeFault<'_> {
    fn report<E: io::Write>(self, err: &mut E) -> u8
        ensures { result ≤ 3 }
    {
        match self {
            ProbeFault::MayNotStop => {
                match writeln!(
                    err,
                    "vdcp: probe stops what plays: --yes-it-may-stop is missing"
                ) {
                    Ok(()) => 2,
                    Err(_) => 3,
                }
            }
            ProbeFault::FewClips(name) => {
                match writeln!(err, "vdcp: {}: fewer than two clips", NameText(name)) {
                    Ok(()) => 1,
                    Err(_) => 3,
                }
            }
            ProbeFault::Failed(failure) => failure.report(err),
        }
    }
}

/// Puts rows of the port's table to the server at `address`, an IPv4 address, a colon and a TCP port. It stops what the
/// port plays. `out` gets a line for each row as soon as it is known, and at last how many rows there are, how many were
/// kept, how many differ, and how many of these can falsify an as-run list. A row that may differ since an answer came late
/// is put again. `err` gets a line of the rows that were kept only then, and one of those that a server can't keep which
/// waits for the rest of a cut command.
///
/// The status is 0 if no row differs, and 1 if one does, a row of the catalogue is refused, or it has fewer than two clips.
/// It is 2 if the port may not be stopped or the address is none (tested in that order), and 3 if a file, memory, the
/// connection or a writer fails, nothing is ever answered, or bytes still come 16 silences after a burst. `err` gets a line
/// of each failure but a writer's.
pub fn do_probe<R: Net + Clock + AllocGlobal, C: io::Read + Drop, W: io::Write, E: io::Write>(
    rt: &R,
    address: &str,
    catalogue: NamedFile<'_, C>,
    settings: ProbeSettings,
    out: &mut W,
    err: &mut E,
) -> u8
    requires { settings.unit ≤ 15 }
    ensures statuses { result ≤ 3 }
{
    match probe(rt, address, catalogue, settings, out) {
        Ok(told) => match write_hints(told.as_slice(), err) {
            Ok(()) if differing_in(told.as_slice()) == 0 => 0,
            Ok(()) => 1,
            Err(_) => 3,
        },
        Err(fault) => fault.report(err),
    }
}

fn probe<'a, R: Net + Clock + AllocGlobal, C: io::Read + Drop, W: io::Write>(
    rt: &R,
    address: &str,
    catalogue: NamedFile<'a, C>,
    settings: ProbeSettings,
    out: &mut W,
) -> Result<Vec<Told>, ProbeFault<'a>>
    requires { settings.unit ≤ 15 }
{
    if !settings.may_stop {
        return Err(ProbeFault::MayNotStop);
    }
    let Ok(address) = address_of(address) else {
        return Err(ProbeFault::Failed(Failure::Address));
    };
    let (clips, naming) = read_clips(rt.alloc(), catalogue, settings)?;
    let rows = rows(rt.alloc())?;
    let mut asker = Asker::connect(rt, address, settings.silence)?;
    Ok(probe_rows(
        &clips,
        &naming,
        rows.as_slice(),
        settings.only,
        &mut asker,
        out,
    )?)
}

fn read_clips<'a, C: io::Read + Drop>(
    alloc: Global,
    catalogue: NamedFile<'a, C>,
    settings: ProbeSettings,
) -> Result<(Table, Naming), ProbeFault<'a>>
    requires { settings.unit ≤ 15 }
    ensures unit { IfOk result (λ read. read.1.unit ≡ settings.unit) }
    ensures port { IfOk result (λ read. read.1.port ≡ settings.port) }
{
    let name = catalogue.name;
    let clips = catalogue.read_catalogue(alloc, settings.rate)?;
    let (Some(first), Some(second)) = (clips.id_at(0), clips.id_at(1)) else {
        return Err(ProbeFault::FewClips(name));
    };
    let naming = Naming {
        unit: settings.unit,
        port: settings.port,
        first,
        second,
        unknown: ClipId::new([0xff; 8]),
    };
    Ok((clips, naming))
}

fn probe_rows<C: Catalogue, R: Clock + AllocGlobal, T: Wire, W: io::Write>(
    clips: &C,
    naming: &Naming,
    rows: &[Row],
    only: Only,
    asker: &mut Asker<'_, R, T>,
    out: &mut W,
) -> Result<Vec<Told>, Failure<'static>>
    requires unit { naming.now.unit ≤ 15 }
    requires works { T.failures asker.old.wire ≡ 0 }
{
    test_answers(naming, asker)?;
    let mut all = Vec::new(asker.alloc());
    let mut spare = MOST_IN_VAIN;
    for k in 0..rows.len() {
        let row = &rows[k];
        if only.has(row.group) {
            put_row(clips, naming, row, &mut spare, asker, out, &mut all)?;
        }
    }
    if write_counts(all.as_slice(), out).is_err() || out.flush().is_err() {
        return Err(Failure::Writer);
    }
    Ok(all)
}

fn test_answers<R: Clock + AllocGlobal, T: Wire>(
    naming: &Naming,
    asker: &mut Asker<'_, R, T>,
) -> Result<(), Failure<'static>>
    requires unit { naming.now.unit ≤ 15 }
    requires works { T.failures asker.old.wire ≡ 0 }
    ensures works { OnOk result (T.failures asker.new.wire ≡ 0) }
{
    let mut status = Vec::new(asker.alloc());
    naming.add_ask(&Ask::Status(0x01), &mut status)?;
    asker.ask_again(status.as_slice())?.whole()?;
    Ok(())
}

fn put_row<C: Catalogue, R: Clock + AllocGlobal, T: Wire, W: io::Write>(
    clips: &C,
    naming: &Naming,
    row: &Row,
    spare: &mut u32,
    asker: &mut Asker<'_, R, T>,
    out: &mut W,
    all: &mut Vec<Told>,
) -> Result<(), Failure<'static>>
    requires unit { naming.now.unit ≤ 15 }
    requires works { T.failures asker.old.wire ≡ 0 }
    ensures works { OnOk result (T.failures asker.new.wire ≡ 0) }
{
    let first = walk_row(clips, naming, row, asker)?;
    let again = match &first {
        Some(difference) => {
            let is_late = difference.may_be_late();
            is_kept_again(clips, naming, row, is_late, spare, asker)?
        }
        None => false,
    };
    let differs = if again { None } else { first };
    let row = *row;
    let told = Told {
        row,
        differs,
        again,
    };
    if write_told(&told, out).is_err() || out.flush().is_err() {
        return Err(Failure::Writer);
    }
    if all.push(told).is_err() {
        return Err(Failure::Memory);
    }
    Ok(())
}

// A row that differs is put again as long as something may have come too late, and in vain no more often than is spare.
fn is_kept_again<C: Catalogue, R: Clock + AllocGlobal, T: Wire>(
    clips: &C,
    naming: &Naming,
    row: &Row,
    is_late: bool,
    spare: &mut u32,
    asker: &mut Asker<'_, R, T>,
) -> Result<bool, Failure<'static>>
    requires unit { naming.now.unit ≤ 15 }
    requires works { T.failures asker.old.wire ≡ 0 }
    ensures works { OnOk result (T.failures asker.new.wire ≡ 0) }
{
    let mut may_be_late = is_late;
    'tries: for _ in 0..MOST_AGAIN {
        let has_come_late = asker.settle()?;
        if *spare == 0 || !(has_come_late || may_be_late) {
            return Ok(false);
        }
        match walk_row(clips, naming, row, asker)? {
            Some(difference) => may_be_late = difference.may_be_late(),
            None => return Ok(true),
        }
        *spare -= 1;
    }
    Ok(false)
}

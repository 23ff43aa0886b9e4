//! How the heading and the rows of a journal are written.
ghost use Rattle.csv.specs.Writing.{default_writer};
ghost use Rattle.std.specs.Option.{option_copied};
ghost use Rattle.std.specs.Prelude.{◌≡◌, ◌≤◌, ◌++◌, IfOk, IfSome, OnErr, OnOk, map};
ghost use Rattle.vdcp_journal.specs.Rows.{AreBytesOf, fields_text, heading_fields, mode_text, row_fields};

use crate::fields::{fields_of, push_hex, push_number};
use crate::moment::Moment;
use crate::row::{Heading, Row};
use arrayvec::{ArrayString, ArrayVec};
use csv::WriterBuilder;
use std::alloc::{AllocError, Allocator};
use vdcp_auto::Mode;
use vdcp_words::LONGEST;

/// Appends a journal's first row, or nothing if memory is refused.
pub fn write_heading<A: Allocator>(
    alloc: A,
    time: &Moment,
    heading: &Heading,
    text: &mut Vec<u8, A>,
) -> Result<(), AllocError>
    ensures added { OnOk result (text.new.items ≡ text.old.items ++ fields_text (heading_fields time.now heading.now)) }
    ensures memory { OnErr result (text.new.items ≡ text.old.items) }
{
    let mut digest = ArrayString::new();
    push_hex(&mut digest, &heading.digest);
    let mut unit = ArrayString::new();
    push_number(&mut unit, usize::from(heading.unit));
    let mut port = ArrayString::new();
    push_number(&mut port, usize::from(heading.port));
    let mut limit = ArrayString::new();
    push_number(&mut limit, heading.limit as usize);
    let mode = mode_text(heading.mode);
    write_fields(
        alloc,
        &[
            time.as_bytes(),
            b"list",
            digest.as_bytes(),
            mode.as_bytes(),
            unit.as_bytes(),
            port.as_bytes(),
            limit.as_bytes(),
        ],
        text,
    )
}

fn mode_text<'a>(mode: Mode) -> &'a str
    ensures { result.now ≡ mode_text mode }
{
    match mode {
        Mode::Plain => "plain",
        Mode::Confirming => "confirm",
    }
}

/// Appends a row, or nothing if memory is refused. `bytes` are those of the row's command to this unit; if they are None,
/// they are made here.
pub fn write_row<A: Allocator>(
    alloc: A,
    unit: u8,
    row: &Row,
    bytes: Option<&ArrayVec<u8, LONGEST>>,
    text: &mut Vec<u8, A>,
) -> Result<(), AllocError>
    requires unit { unit ≤ 15 }
    requires spelled { IfSome (option_copied bytes) (λ b. AreBytesOf unit b.items row.now.note) }
    ensures added { OnOk result (text.new.items ≡ text.old.items ++ fields_text (row_fields unit row.now)) }
    ensures memory { OnErr result (text.new.items ≡ text.old.items) }
{
    let note = fields_of(unit, &row.note, bytes);
    write_fields(
        alloc,
        &[
            row.time.as_bytes(),
            note.word.as_bytes(),
            note.text.as_bytes(),
            note.detail.as_bytes(),
        ],
        text,
    )
}

fn write_fields<A: Allocator>(
    alloc: A,
    fields: &[&[u8]],
    text: &mut Vec<u8, A>,
) -> Result<(), AllocError>
    ensures added { OnOk result (text.new.items ≡ text.old.items ++ fields_text (map (λ f. f.now) fields.now)) }
    ensures memory { OnErr result (text.new.items ≡ text.old.items) }
{
    let row = text_of(alloc, fields)?;
    text.extend_from_slice(row.as_slice())
}

// It is written to memory, so only want of memory can refuse it.
fn text_of<A: Allocator>(alloc: A, fields: &[&[u8]]) -> Result<Vec<u8, A>, AllocError>
    ensures { IfOk result (λ text. text.items ≡ fields_text (map (λ f. f.now) fields.now)) }
{
    let mut rows = WriterBuilder::new().from_writer(Vec::new(alloc));
    if rows.write_fields(fields).is_err() {
        return Err(AllocError);
    }
    match rows.into_inner() {
        Ok(text) => Ok(text),
        Err(_) => Err(AllocError),
    }
}

//! How a capture is read.
ghost use Rattle.std.specs.Prelude.{◌≡◌, ◌++◌, ◌∷◌, [], ℕ, List, IfErr, IfOk, IfSome, OnOk};
ghost use Rattle.vdcp_offline.specs.Found.{HasFound};
ghost use Rattle.vdcp_offline.specs.Rows.{IsCaptureOf, Says, numbered, row_text, said_by};
ghost use Rattle.vdcp_text.specs.Text.{way_text};
ghost use Rattle.vdcp_offline.specs.Judged.{IsCaptureFailure};
ghost use Rattle.vdcp_offline.specs.declared.judge.capture.Piece.{Piece};
ghost use Rattle.vdcp_offline.specs.declared.judge.settings.JudgeSettings.{JudgeSettings};
ghost use Rattle.vdcp_value.specs.declared.part.Item.{Item};

use crate::judge::findings::Found;
use hex::FromHexError;
use std::alloc::{AllocError, Global};
use std::io;
use vdcp_auto::{Captured, Source, Way, captured_in};
use vdcp_files::{NamedFile, lines_in, next_line};
use vdcp_text::{Failure, ScriptLineFault};

// Lines count from 1.
#[derive(Clone, Copy, Debug, PartialEq, Eq)]
pub struct Piece {
    pub line: usize,
    pub captured: Captured,
}

pub fn read_capture<'a, R: io::Read + Drop, S: Source>(
    alloc: Global,
    capture: NamedFile<'a, R>,
    unit: u8,
    found: &mut Found<'_, S>,
) -> Result<(), Failure<'a>>
    ensures found { (settings : JudgeSettings) (items : List Item) → HasFound S.items settings items [] found.old →
        OnOk result ((pieces : List Piece) × IsCaptureOf unit (R.remaining capture.entry.reader) pieces
        × HasFound S.items settings items pieces found.new) }
    ensures refused { IfErr result (IsCaptureFailure capture.entry.name) }
{
    let NamedFile { name, reader } = capture;
    let Ok(mut lines) = lines_in(alloc, reader) else {
        return Err(Failure::Memory);
    };
    'lines: for before in 0..usize::MAX {
        let Some(text) = next_line(&mut lines, name, before + 1)? else {
            return Ok(());
        };
        let said = said_in(alloc, unit, name, before + 1, text.as_str())?;
        add(before + 1, said.as_slice(), found)?;
    }
    Err(Failure::Read(name))
}

#[tactic(auto, using(crate::proofs::JudgeLoops::says_nothing, crate::proofs::JudgeLoops::says_row))]
fn said_in<'a>(
    alloc: Global,
    unit: u8,
    name: &'a str,
    number: usize,
    text: &str,
) -> Result<Vec<Captured>, Failure<'a>>
    ensures says { IfOk result (λ said. Says unit text.now said.items) }
    ensures refused { IfErr result (IsCaptureFailure name.entry) }
{
    if text.is_empty() {
        return Ok(Vec::new(alloc));
    }
    let Some((way, digits)) = row_in(text) else {
        return Err(Failure::ScriptLine(name, number, ScriptLineFault::Word));
    };
    match hex::decode(alloc, digits) {
        Ok(burst) => Ok(said_by(alloc, unit, way, burst.as_slice())?),
        Err(FromHexError::OutOfMemory) => Err(Failure::Memory),
        Err(_) => Err(Failure::ScriptLine(name, number, ScriptLineFault::Hex)),
    }
}

#[tactic(auto, using(crate::proofs::JudgeLoops::is_row))]
fn row_in(text: &str) -> Option<(Way, &str)>
    ensures { IfSome result (λ row. (time : List ℕ) × (text.now ≡ row_text time row.0 row.1.now)) }
{
    let (_, rest) = split(text)?;
    let (way, digits) = split(rest)?;
    Some((way_in(way)?, digits))
}

fn split(text: &str) -> Option<(&str, &str)>
    ensures { IfSome result (λ parts. text.now ≡ parts.0.now ++ 0x2C ∷ parts.1.now) }
{
    text.split_once(',')
}

fn way_in(name: &str) -> Option<Way>
    ensures { IfSome result (λ way. name.now ≡ way_text way) }
{
    match name {
        "down" => Some(Way::Down),
        "up" => Some(Way::Up),
        _ => None,
    }
}

fn said_by(alloc: Global, unit: u8, way: Way, burst: &[u8]) -> Result<Vec<Captured>, AllocError>
    ensures { IfOk result (λ said. said.items ≡ said_by unit way burst.now) }
{
    if burst.is_empty() {
        let mut said = Vec::new(alloc);
        said.push(Captured::Silence)?;
        return Ok(said);
    }
    captured_in(alloc, unit, way, burst)
}

fn add<S: Source>(
    number: usize,
    said: &[Captured],
    found: &mut Found<'_, S>,
) -> Result<(), AllocError>
    ensures { (settings : JudgeSettings) (items : List Item) (pieces : List Piece)
        → HasFound S.items settings items pieces found.old →
        OnOk result (HasFound S.items settings items (pieces ++ numbered number said.now) found.new) }
{
    for k in 0..said.len() {
        found.add(&Piece {
            line: number,
            captured: said[k],
        })?;
    }
    Ok(())
}

//! The lines that are printed of rows, and the counts.
use crate::row::{Group, Row};
use std::io;

#[derive(Drop)]
pub struct Told {
    pub row: Row,
    pub differs: Option<Difference>,
    /// It differed at first, and was kept when it was put again.
    pub again: bool,
}

/// How what came for a burst differs from what may come.
#[derive(Drop)]
pub struct Difference {
    /// What was sent, what came, and what may come.
    pub text: String,
    pub cause: Cause,
}

#[derive(Clone, Copy, Debug, PartialEq, Eq)]
pub enum Cause {
    Otherwise,
    /// It is a beginning of what may come, so the rest may be late; or it ends with that, behind a rest that was late.
    Late,
    /// Only NAK 80h is lacking, which says that a command was cut: the server waits for the rest of it.
    Awaiting,
    /// The awaited state didn't come.
    Overdue,
}

impl Difference {
    pub fn may_be_late(&self) -> bool {
        match self.cause {
            Cause::Late | Cause::Awaiting => true,
            // (a state that was asked for so often isn't late)
            Cause::Otherwise | Cause::Overdue => false,
        }
    }
}

/// Writes a row's line, and a second one if it differs and can falsify a list.
pub fn write_told<W: io::Write>(told: &Told, out: &mut W) -> io::Result<()> {
    let name = told.row.name;
    let Some(difference) = &told.differs else {
        return writeln!(out, "ok {name}");
    };
    let text = difference.text.as_str();
    writeln!(out, "differs {name}: {text}")?;
    let harm = match told.row.group {
        Group::Safe => return Ok(()),
        Group::Unaired => "the list may name an event that didn't air",
        Group::Unlisted => "what the list doesn't name may air, or air twice",
    };
    writeln!(out, "unsafe {name}: {harm}")
}

pub fn write_counts<W: io::Write>(told: &[Told], out: &mut W) -> io::Result<()> {
    let (rows, differ) = (told.len(), differing_in(told));
    let ok = rows.saturating_sub(differ);
    let bad = told
        .iter()
        .filter(|told| told.differs.is_some() && told.row.group != Group::Safe)
        .count();
    writeln!(out, "rows {rows} ok {ok} differ {differ} unsafe {bad}")
}

/// Writes a line of the rows that were kept only when put again, and one of those that a server can't keep which waits for
/// the rest of a cut command, if there are any.
pub fn write_hints<E: io::Write>(told: &[Told], err: &mut E) -> io::Result<()> {
    write_hint(Hint::Late, told, err)?;
    write_hint(Hint::Awaiting, told, err)
}

#[derive(Clone, Copy)]
enum Hint {
    Late,
    Awaiting,
}

impl Hint {
    fn text(self) -> &'static str {
        match self {
            Hint::Late => "late, and right when asked again:",
            Hint::Awaiting => {
                "can't be kept where the rest of a cut command is waited for, as by serve --real-time:"
            }
        }
    }

    fn is_of(self, told: &Told) -> bool {
        match (self, &told.differs) {
            (Hint::Late, None) => told.again,
            (Hint::Awaiting, Some(difference)) => difference.cause == Cause::Awaiting,
            (Hint::Late, Some(_)) | (Hint::Awaiting, None) => false,
        }
    }
}

fn write_hint<E: io::Write>(hint: Hint, told: &[Told], err: &mut E) -> io::Result<()> {
    let mut is_begun = false;
    for k in 0..told.len() {
        if hint.is_of(&told[k]) {
            if !is_begun {
                write!(err, "  {}", hint.text())?;
                is_begun = true;
            }
            write!(err, " {}", told[k].row.name)?;
        }
    }
    if is_begun { writeln!(err) } else { Ok(()) }
}

pub fn differing_in(told: &[Told]) -> usize {
    told.iter().filter(|told| told.differs.is_some()).count()
}

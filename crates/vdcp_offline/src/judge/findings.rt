//! The exchanges of a capture, each with its line and its ruling.
ghost use Rattle.std.specs.Prelude.{◌≡◌, ◌++◌, ◌∷◌, List, [], IfOk, OnOk};
ghost use Rattle.vdcp_offline.specs.Findings.{AreFindings, is_message};
ghost use Rattle.vdcp_offline.specs.Found.{HasFound, Tells, last_exchange, line_after};
ghost use Rattle.vdcp_offline.specs.declared.judge.capture.Piece.{Piece};
ghost use Rattle.vdcp_offline.specs.declared.judge.findings.Finding.{Finding};
ghost use Rattle.vdcp_offline.specs.declared.judge.settings.JudgeSettings.{JudgeSettings};
ghost use Rattle.vdcp_value.specs.declared.part.Item.{Item};

use crate::judge::capture::Piece;
use crate::judge::settings::JudgeSettings;
use crate::judge::told::Told;
use std::alloc::{AllocError, Global};
use vdcp_auto::{Captured, Exchange, Ruling, Source, exchange_ended};
use vdcp_words::Command;

#[derive(Clone, Copy, Debug, PartialEq, Eq)]
pub struct Finding {
    pub line: usize,
    pub exchange: Exchange,
    pub ruling: Ruling,
}

#[derive(Drop)]
pub struct Found<'e, S: Source> {
    pub told: Told<'e, S>,
    // The command whose exchange goes on.
    pub awaited: Option<Command>,
    pub line: usize,
    pub has_message: bool,
}

impl<'e, S: Source> Found<'e, S> {
    pub fn new(alloc: Global, events: &'e S, settings: JudgeSettings) -> Self
        ensures { HasFound S.items settings (S.items events.now) [] result }
    {
        Found {
            told: Told::new(alloc, events, settings),
            awaited: None,
            line: 0,
            has_message: false,
        }
    }

    pub fn add(&mut self, piece: &Piece) -> Result<(), AllocError>
        ensures { (settings : JudgeSettings) (items : List Item) (pieces : List Piece)
            → HasFound S.items settings items pieces self.old →
            OnOk result (HasFound S.items settings items (pieces ++ piece.now ∷ []) self.new) }
    {
        let mode = self.told.settings.mode;
        let captured = piece.captured;
        let ended = exchange_ended(mode, &mut self.awaited, &captured);
        self.told.add_ended(self.line, ended)?;
        self.line = line_after(self.line, piece);
        self.has_message |= is_message(&captured);
        Ok(())
    }

    /// The capture is over: the last command went unanswered if it has heard nothing. Gives all that is to be told.
    pub fn end(self) -> Result<Told<'e, S>, AllocError>
        ensures { (settings : JudgeSettings) (items : List Item) (pieces : List Piece)
            → HasFound S.items settings items pieces self.entry → IfOk result (λ told. (findings : List Finding)
            × Tells S.items settings items findings told × AreFindings settings.mode items pieces findings) }
    {
        let Found {
            mut told,
            awaited,
            line,
            ..
        } = self;
        told.add_ended(line, last_exchange(awaited))?;
        Ok(told)
    }
}

fn last_exchange(awaited: Option<Command>) -> Option<Exchange>
    ensures { result ≡ last_exchange awaited }
{
    match awaited {
        Some(command) => Some(Exchange {
            command,
            heard: None,
        }),
        None => None,
    }
}

fn line_after(before: usize, piece: &Piece) -> usize
    ensures { result ≡ line_after before piece.now }
{
    match piece.captured {
        Captured::Sent(_) => piece.line,
        Captured::Came(_) | Captured::Silence => before,
    }
}

fn is_message(captured: &Captured) -> bool
    ensures { result ≡ is_message captured.now }
{
    matches!(captured, Captured::Sent(_) | Captured::Came(_))
}

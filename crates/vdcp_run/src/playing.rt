//! What takes part in a run beside its wire: the journal's recorder and the console.
use crate::console::Console;
use crate::run_end::Signs;
use std::io;
use std::rt::{Clock, Files};
use vdcp_auto::{Controller, Heard, Source};
use vdcp_drive::{Call, Hooks, KeepFault, Next};
use vdcp_journal_file::{Disk, Recorder};
use vdcp_list::Rest;
use vdcp_words::Command;

#[derive(Drop)]
pub struct Playing<'a, 'r, 'l, R: Clock, F: Disk, I: io::Read, O: io::Write, V: io::Write> {
    pub recorder: Option<Recorder<'a, 'r, R, F>>,
    pub console: Console<'r, 'l, R, I, O, V>,
    /// The turns that may still be made.
    pub left: u32,
    pub signs: Signs,
}

impl<
    S: Source,
    R: Files + Clock + AllocGlobal,
    F: Disk + Drop,
    I: io::Read + Drop,
    O: io::Write + Drop,
    V: io::Write + Drop,
> Hooks<Rest<S>> for Playing<'_, '_, '_, R, F, I, O, V> {
    ghost use Rattle.vdcp_run.specs.Session.{AsksIn, Keeping, KeepsOn, LosesIn};

    ghost Journal = { Keeping F };

    ghost journal = { λ p. record { recorder = p.recorder; signs = p.signs; left = p.left; list = p.console.hand.list } };

    ghost asks = { λ plan. AsksIn plan.mode };

    ghost adds = { KeepsOn F.safe };

    ghost loses = { LosesIn F.safe };

    fn due(&mut self, controller: &Controller<Rest<S>>) -> Next {
        self.left = self.left.saturating_sub(1);
        self.console.next(controller)
    }

    fn keep_call(&mut self, call: Call) -> Result<(), KeepFault> {
        Hooks::<Rest<S>>::keep_call(&mut self.recorder, call)?;
        self.signs.note_call(call);
        self.console.hand.heed_call(call);
        Ok(())
    }

    fn keep_sent(&mut self, unit: u8, command: &Command, bytes: &[u8]) -> Result<(), KeepFault> {
        self.console.note_sent();
        Hooks::<Rest<S>>::keep_sent(&mut self.recorder, unit, command, bytes)?;
        self.signs.note_sent(*command);
        Ok(())
    }

    fn note_end(&mut self, heard: Option<Heard>) {
        self.console.note_end(heard);
        match heard {
            Some(heard) => self.signs.note_heard(heard),
            None => self.signs.note_silence(),
        }
        Hooks::<Rest<S>>::note_end(&mut self.recorder, heard);
    }

    fn see(&mut self, controller: &Controller<Rest<S>>) {
        self.console.see(controller);
    }
}

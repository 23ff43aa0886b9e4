//! What takes part in an automation's run beside its wire: it keeps exchanges, makes calls and looks on.
use thiserror::Error;
use vdcp_auto::{Controller, Heard, ListCall, Source};
use vdcp_words::Command;

/// An operator's call. `Take` and `Stop` are given to the controller once they are kept; one on the list is only kept, and
/// the hooks heed it.
#[derive(Clone, Copy, Debug, PartialEq, Eq)]
pub enum Call {
    Take,
    Stop,
    List(ListCall),
}

/// What an automation does next.
#[derive(Clone, Copy, Debug, PartialEq, Eq)]
pub enum Next {
    /// It sends its next command, unless it awaits an answer, and listens.
    GoOn,
    Call(Call),
    /// It leaves the line as it is.
    Leave,
}

/// What is kept of a run: each command before it goes out, each call before it is given, and what ended an exchange.
#[derive(Clone, Copy, Debug, PartialEq, Eq)]
pub enum Kept {
    Sent(Command),
    Heard(Heard),
    Silence,
    Called(Call),
}

#[derive(Clone, Copy, Debug, PartialEq, Eq, Error)]
#[error("it isn't kept")]
pub struct KeepFault;

/// Why a run was broken off.
#[derive(Clone, Copy, Debug, PartialEq, Eq, Error)]
pub enum BrokenOff {
    /// The wire failed, in this call or an earlier one: the driver sends nothing any more.
    #[error("the line failed")]
    Device,
    /// The next command couldn't be kept, and none of it was sent; or a call couldn't, and it wasn't given.
    #[error("it isn't kept")]
    Unkept,
    #[error("it was left")]
    Left,
}

/// Takes part in an automation's run.
pub trait Hooks<S: Source> {
    ghost use Rattle.std.specs.Prelude.{◌≡◌, OnErr, OnOk};
    ghost use Rattle.vdcp_auto.specs.Plan.{Plan, plan_of};
    ghost use Rattle.vdcp_auto.specs.State.{State};
    ghost use Rattle.vdcp_frame.specs.Message.{spelling};
    ghost use Rattle.vdcp_words.specs.Commands.{command_message};
    ghost use Rattle.vdcp_drive.specs.Steps.{end_of};
    ghost use Rattle.vdcp_drive.specs.declared.hooks.Kept.{Kept};
    ghost use Rattle.vdcp_drive.specs.declared.hooks.Kept.TheVariants as kept;
    ghost use Rattle.vdcp_drive.specs.declared.hooks.Next.{Next};

    ghost Journal: { Type 0 };

    ghost journal: { Self → Journal };

    /// `asks plan state next a b`: from `a` to `b` it answered `next` to a controller of this plan in this state.
    ghost asks: { Plan → State → Next → Journal → Journal → Type 0 };

    /// `adds note a b`: from `a` to `b` the journal kept this.
    ghost adds: { Kept → Journal → Journal → Type 0 };

    /// `loses note a b`: from `a` to `b` it failed to keep this.
    ghost loses: { Kept → Journal → Journal → Type 0 };

    /// Says what comes next at the beginning of each turn, unless the controller has ended. It may wait before.
    fn due(&mut self, controller: &Controller<S>) -> Next
        ensures { asks (plan_of S.items controller.now) controller.now.state result (journal self.old) (journal self.new) };

    /// Makes a call safe, with all that was noted before, before the controller is given it.
    fn keep_call(&mut self, call: Call) -> Result<(), KeepFault>
        ensures called { OnOk result (adds (kept.Called call) (journal self.old) (journal self.new)) }
        ensures missed { OnErr result (loses (kept.Called call) (journal self.old) (journal self.new)) };

    /// Makes a command safe, with all that was noted before, before the first of its bytes goes out to this unit. If it
    /// fails, the command may be missing, and the end of the exchange before it.
    fn keep_sent(&mut self, unit: u8, command: &Command, bytes: &[u8]) -> Result<(), KeepFault>
        requires { bytes.now ≡ spelling (command_message unit command.now) }
        ensures kept { OnOk result (adds (kept.Sent command.now) (journal self.old) (journal self.new)) }
        ensures lost { OnErr result (loses (kept.Sent command.now) (journal self.old) (journal self.new)) };

    /// Notes what ended an exchange; `None` is for silence. This is safe once the next command is.
    fn note_end(&mut self, heard: Option<Heard>)
        ensures { adds (end_of heard) (journal self.old) (journal self.new) };

    /// Looks on before each listen, once the next command is out.
    fn see(&mut self, _controller: &Controller<S>)
        ensures { journal self.new ≡ journal self.old }
    {}
}

/// Keeps nothing, makes no call and doesn't look on.
#[derive(Drop)]
pub struct Unhooked;

impl<S: Source> Hooks<S> for Unhooked {
    ghost use Rattle.std.specs.Prelude.{◌≡◌};
    ghost use Rattle.vdcp_drive.specs.declared.hooks.Next.TheVariants.{GoOn};

    ghost Journal = { Unit {0} };

    ghost journal = { λ _. tt };

    ghost asks = { λ _ _ next _ _. next ≡ GoOn };

    ghost adds = { λ _ _ _. Unit {0} };

    ghost loses = { λ _ _ _. ⊥ };

    fn due(&mut self, _controller: &Controller<S>) -> Next {
        Next::GoOn
    }

    fn keep_call(&mut self, _call: Call) -> Result<(), KeepFault> {
        Ok(())
    }

    fn keep_sent(&mut self, _unit: u8, _command: &Command, _bytes: &[u8]) -> Result<(), KeepFault> {
        Ok(())
    }

    fn note_end(&mut self, _heard: Option<Heard>) {}
}

impl<S: Source, H: Hooks<S>> Hooks<S> for Option<H> {
    ghost use Rattle.std.specs.Option.{option_map};
    ghost use Rattle.std.specs.Prelude.{Option};
    ghost use Rattle.vdcp_drive.specs.Hooked.{MayKeep, MayLose};

    ghost Journal = { Option H.Journal };

    ghost journal = { λ h. option_map H.journal h };

    ghost asks = { λ plan state. MayKeep (H.asks plan state) };

    ghost adds = { MayKeep H.adds };

    ghost loses = { MayLose H.loses };

    fn due(&mut self, controller: &Controller<S>) -> Next {
        match self {
            Some(hooks) => hooks.due(controller),
            None => Next::GoOn,
        }
    }

    fn keep_call(&mut self, call: Call) -> Result<(), KeepFault> {
        match self {
            Some(hooks) => hooks.keep_call(call),
            None => Ok(()),
        }
    }

    fn keep_sent(&mut self, unit: u8, command: &Command, bytes: &[u8]) -> Result<(), KeepFault> {
        match self {
            Some(hooks) => hooks.keep_sent(unit, command, bytes),
            None => Ok(()),
        }
    }

    fn note_end(&mut self, heard: Option<Heard>) {
        if let Some(hooks) = self {
            hooks.note_end(heard);
        }
    }

    fn see(&mut self, controller: &Controller<S>) {
        if let Some(hooks) = self {
            hooks.see(controller);
        }
    }
}

//! What a captured burst says, by the way it went.
ghost use Rattle.std.specs.Option.{option_to_list};
ghost use Rattle.std.specs.Prelude.{◌≡◌, ◌++◌, IfOk, OnOk};
ghost use Rattle.vdcp_frame.specs.Message.{content_of};
ghost use Rattle.vdcp_auto.specs.Captures.{captured_as, captured_in, command_as};

use crate::capture::Captured;
use crate::exchange::Heard;
use std::alloc::{AllocError, Allocator};
use vdcp_frame::{Message, Messages};
use vdcp_words::Command;

#[derive(Clone, Copy, Debug, PartialEq, Eq)]
pub enum Way {
    /// To the port.
    Down,
    /// To the automation.
    Up,
}

/// Reads a burst to or from the port of this unit: down, its commands; up, each message as an answer.
pub fn captured_in<A: Allocator>(
    alloc: A,
    unit: u8,
    way: Way,
    burst: &[u8],
) -> Result<Vec<Captured, A>, AllocError>
    ensures { IfOk result (λ captured. captured.items ≡ captured_in unit way burst.now) }
{
    let mut captured = Vec::new(alloc);
    let mut messages = Messages::of(burst);
    'messages: while let Some(message) = messages.next() {
        add(&mut captured, captured_as(unit, way, &message))?;
    }
    Ok(captured)
}

fn add<A: Allocator>(
    captured: &mut Vec<Captured, A>,
    found: Option<Captured>,
) -> Result<(), AllocError>
    ensures { OnOk result (captured.new.items ≡ captured.old.items ++ option_to_list found) }
{
    if let Some(found) = found {
        captured.push(found)?;
    }
    Ok(())
}

/// Reads one message, as `captured_in` does.
pub fn captured_as(unit: u8, way: Way, message: &Message) -> Option<Captured>
    ensures { result ≡ captured_as unit way (content_of message.now) }
{
    match way {
        Way::Down => match command_as(unit, message) {
            Some(command) => Some(Captured::Sent(command)),
            None => None,
        },
        Way::Up => Some(Captured::Came(Heard::of_message(message, unit))),
    }
}

fn command_as(unit: u8, message: &Message) -> Option<Command>
    ensures { result ≡ command_as unit (content_of message.now) }
{
    match message {
        Message::Framed { unit: to, .. } if *to == unit => match Command::read(message) {
            Ok(command) => Some(command),
            Err(_) => None,
        },
        _ => None,
    }
}

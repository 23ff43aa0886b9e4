//! What replies, commands and exchanges mean to a controller.
ghost use Rattle.std.specs.Prelude.{◌≡◌, ◌&&◌};
ghost use Rattle.vdcp_auto.specs.Replies as replies;
ghost use Rattle.vdcp_auto.specs.Commands as commands;
ghost use Rattle.vdcp_auto.specs.Log as log;
ghost use Rattle.vdcp_auto.specs.Table as table;
ghost use Rattle.vdcp_auto.specs.Turn as turn;

use crate::exchange::{Exchange, Heard};
use crate::phase::Mode;
use vdcp_value::Item;
use vdcp_words::state::{CUE_DONE, CUEING, PLAYING};
use vdcp_words::{Command, Reply};

pub fn is_receipt(reply: &Reply) -> bool
    ensures { result ≡ replies.is_receipt reply.now }
{
    matches!(reply, Reply::Ack | Reply::Nak(_))
}

pub fn is_refusal(reply: &Reply) -> bool
    ensures { result ≡ replies.is_refusal reply.now }
{
    matches!(reply, Reply::Nak(0x01))
}

pub fn is_granted(reply: &Reply) -> bool
    ensures { result ≡ replies.is_granted reply.now }
{
    matches!(reply, Reply::Opened(true))
}

pub fn is_present(reply: &Reply) -> bool
    ensures { result ≡ replies.is_present reply.now }
{
    matches!(reply, Reply::Present(true))
}

fn has_on(bit: u8, reply: &Reply) -> bool
    ensures { result ≡ replies.has_on bit reply.now }
{
    match reply {
        Reply::State(_, Some(byte)) => *byte & bit != 0,
        _ => false,
    }
}

fn has_off(bit: u8, reply: &Reply) -> bool
    ensures { result ≡ replies.has_off bit reply.now }
{
    match reply {
        Reply::State(_, Some(byte)) => *byte & bit == 0,
        _ => false,
    }
}

pub fn is_done(reply: &Reply) -> bool
    ensures { result ≡ replies.is_done reply.now }
{
    has_on(CUE_DONE, reply)
}

pub fn is_playing(reply: &Reply) -> bool
    ensures { result ≡ replies.is_playing reply.now }
{
    has_on(PLAYING, reply)
}

pub fn is_cueing(reply: &Reply) -> bool
    ensures { result ≡ replies.is_cueing reply.now }
{
    has_on(CUEING, reply)
}

/// Whether nothing is cued or being cued.
pub fn is_empty(reply: &Reply) -> bool
    ensures { result ≡ replies.is_empty reply.now }
{
    has_off(CUEING, reply) && has_off(CUE_DONE, reply)
}

pub fn names_other(item: &Item, reply: &Reply) -> bool
    ensures { result ≡ table.names_other (Some item.now) reply.now }
{
    match reply {
        Reply::Active(Some(id)) => *id != item.id,
        _ => false,
    }
}

pub fn cue_of(item: &Item) -> Command
    ensures { result ≡ commands.cue_of item.now }
{
    match item.part {
        None => Command::PlayCue(item.id),
        Some(part) => Command::CueData(item.id, part.start, part.duration),
    }
}

/// Whether it asks for a reply of its own. The other commands are answered by ACK.
pub fn is_sense(command: &Command) -> bool
    ensures { result ≡ commands.is_sense command.now }
{
    match command {
        Command::Open(_, _)
        | Command::Status(_)
        | Command::ActiveId
        | Command::IdRequest(_)
        | Command::IdSize(_) => true,
        Command::Close(_)
        | Command::Select(_)
        | Command::PlayCue(_)
        | Command::CueData(_, _, _)
        | Command::Play
        | Command::Stop => false,
    }
}

fn fits(command: &Command, reply: &Reply) -> bool
    ensures { result ≡ commands.fits command.now reply.now }
{
    match command {
        Command::Open(_, _) => matches!(reply, Reply::Opened(_)),
        Command::Status(_) => matches!(reply, Reply::State(_, Some(_))),
        Command::ActiveId => matches!(reply, Reply::Active(_)),
        Command::IdRequest(_) => matches!(reply, Reply::Present(_)),
        Command::IdSize(_) => matches!(reply, Reply::Size(_)),
        Command::Close(_)
        | Command::Select(_)
        | Command::PlayCue(_)
        | Command::CueData(_, _, _)
        | Command::Play
        | Command::Stop => matches!(reply, Reply::Ack),
    }
}

pub fn answer_in(exchange: &Exchange) -> Option<Reply>
    ensures { result ≡ log.answer_in exchange.now }
{
    match exchange.heard {
        Some(Heard::Reply(reply)) if is_refusal(&reply) || fits(&exchange.command, &reply) => {
            Some(reply)
        }
        _ => None,
    }
}

/// Whether it counts towards the limit if it is unanswered.
pub fn is_counted(mode: Mode, exchange: &Exchange) -> bool
    ensures { result ≡ log.is_counted mode exchange.now }
{
    match mode {
        Mode::Plain => true,
        Mode::Confirming => is_sense(&exchange.command),
    }
}

pub fn is_end(mode: Mode, command: &Command, came: &Option<Heard>) -> bool
    ensures { result ≡ turn.is_end mode command.now came.now }
{
    match (mode, came) {
        (Mode::Plain, _) => true,
        (Mode::Confirming, None) => true,
        (Mode::Confirming, Some(Heard::Other)) => is_sense(command),
        (Mode::Confirming, Some(Heard::Reply(reply))) => is_sense(command) && !is_receipt(reply),
    }
}

pub fn is_cue(exchange: &Exchange) -> bool
    ensures { result ≡ log.is_cue exchange.now }
{
    matches!(
        exchange.command,
        Command::PlayCue(_) | Command::CueData(_, _, _)
    )
}

pub fn is_play(exchange: &Exchange) -> bool
    ensures { result ≡ log.is_play exchange.now }
{
    matches!(exchange.command, Command::Play)
}

pub fn is_stop(exchange: &Exchange) -> bool
    ensures { result ≡ log.is_stop exchange.now }
{
    matches!(exchange.command, Command::Stop)
}

pub fn is_close(exchange: &Exchange) -> bool
    ensures { result ≡ log.is_close exchange.now }
{
    matches!(exchange.command, Command::Close(_))
}

pub fn is_acked(exchange: &Exchange) -> bool
    ensures { result ≡ log.is_acked exchange.now }
{
    matches!(exchange.heard, Some(Heard::Reply(Reply::Ack)))
}

/// Whether a PLAY heard ACK or NAK 01.
pub fn is_answered_play(exchange: &Exchange) -> bool
    ensures { result ≡ (log.is_play exchange.now && log.is_answered exchange.now) }
{
    is_play(exchange)
        && matches!(
            exchange.heard,
            Some(Heard::Reply(Reply::Ack | Reply::Nak(0x01)))
        )
}

pub fn is_grant(exchange: &Exchange) -> bool
    ensures { result ≡ log.is_grant exchange.now }
{
    matches!(
        (exchange.command, exchange.heard),
        (Command::Open(_, _), Some(Heard::Reply(Reply::Opened(true))))
    )
}

pub fn is_done_status(exchange: &Exchange) -> bool
    ensures { result ≡ log.is_done_status exchange.now }
{
    match (exchange.command, exchange.heard) {
        (Command::Status(_), Some(Heard::Reply(Reply::State(_, Some(byte))))) => {
            byte & CUE_DONE != 0
        }
        _ => false,
    }
}

pub fn is_empty_status(exchange: &Exchange) -> bool
    ensures { result ≡ log.is_empty_status exchange.now }
{
    match (exchange.command, exchange.heard) {
        (Command::Status(_), Some(Heard::Reply(Reply::State(_, Some(byte))))) => {
            byte & CUEING == 0 && byte & CUE_DONE == 0
        }
        _ => false,
    }
}

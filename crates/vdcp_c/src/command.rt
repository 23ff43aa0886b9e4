//! Commands as a struct, as bytes and as text.
ghost use Rattle.std.specs.Prelude.{◌≡◌, ◌≢◌, IfSome, IsSome, pos};
ghost use Rattle.vdcp_frame.specs.Message.{Content, spelling};
ghost use Rattle.vdcp_words.specs.Commands.{IsWritableCommand, command_message};
ghost use Rattle.vdcp_words.specs.Computed.{command_of};
ghost use Rattle.vdcp_words.specs.Texts.{command_text};
ghost use Rattle.vdcp_words.specs.declared.command.Command.{Command};
ghost use Rattle.vdcp_c.specs.Commands.{IsCommand, IsReadCommand};
ghost use Rattle.vdcp_c.specs.Rooms.{IsPut, IsPutFrom};
ghost use Rattle.vdcp_c.specs.Told.{IsContent, bad_command, bad_message};

use crate::code::{BAD_COMMAND, BAD_MESSAGE, BAD_VALUE, OK};
use crate::message::{message_in, vdcp_message};
use crate::room::put_bytes;
use arrayvec::ArrayString;
use vdcp_text::read_command;
use vdcp_value::ClipId;
use vdcp_value::laws::an_id_is_its_bytes;
use vdcp_words::Command;

#[repr(C)]
#[derive(Clone, Copy)]
pub struct vdcp_command {
    /// 1 OPEN PORT, 2 CLOSE PORT, 3 SELECT PORT, 4 PLAY CUE, 5 CUE WITH DATA, 6 PLAY, 7 STOP,
    /// 8 PORT STATUS REQUEST, 9 ACTIVE ID REQUEST, 10 ID REQUEST, 11 ID SIZE REQUEST.
    pub word: u8,
    /// The port, or the bitmap.
    pub byte: u8,
    pub lock: u8,
    pub unused: u8,
    pub id: [u8; 8],
    pub start: [u8; 4],
    pub duration: [u8; 4],
}

pub(crate) fn command_in(c: &vdcp_command) -> Option<Command>
    ensures some { IfSome result (IsCommand c.now) }
    ensures accepts { (command : Command) → IsCommand c.now command → IsSome result }
{
    an_id_is_its_bytes();
    match c.word {
        1 => Some(Command::Open(c.byte, c.lock)),
        2 => Some(Command::Close(c.byte)),
        3 => Some(Command::Select(c.byte)),
        4 => Some(Command::PlayCue(ClipId::new(c.id))),
        5 => Some(Command::CueData(ClipId::new(c.id), c.start, c.duration)),
        6 => Some(Command::Play),
        7 => Some(Command::Stop),
        8 => Some(Command::Status(c.byte)),
        9 => Some(Command::ActiveId),
        10 => Some(Command::IdRequest(ClipId::new(c.id))),
        11 => Some(Command::IdSize(ClipId::new(c.id))),
        _ => None,
    }
}

pub(crate) fn put_command(command: &Command, out: &mut vdcp_command)
    ensures { IsCommand out.new command.now }
{
    match *command {
        Command::Open(port, lock) => {
            out.word = 1;
            out.byte = port;
            out.lock = lock;
        }
        Command::Close(port) => {
            out.word = 2;
            out.byte = port;
        }
        Command::Select(port) => {
            out.word = 3;
            out.byte = port;
        }
        Command::PlayCue(id) => {
            out.word = 4;
            out.id = id.bytes();
        }
        Command::CueData(id, start, duration) => {
            out.word = 5;
            out.id = id.bytes();
            out.start = start;
            out.duration = duration;
        }
        Command::Play => out.word = 6,
        Command::Stop => out.word = 7,
        Command::Status(bitmap) => {
            out.word = 8;
            out.byte = bitmap;
        }
        Command::ActiveId => out.word = 9,
        Command::IdRequest(id) => {
            out.word = 10;
            out.id = id.bytes();
        }
        Command::IdSize(id) => {
            out.word = 11;
            out.id = id.bytes();
        }
    }
}

#[unsafe(no_mangle)]
pub extern "C" fn vdcp_command_bytes(
    command: &vdcp_command,
    unit: u8,
    out: &mut [u8],
    written: &mut usize,
) -> i32
    ensures put { result ≢ bad_command → (c : Command) × IsCommand command.now c
        × IsPutFrom unit (spelling (command_message unit c)) out.old result written.new out.new }
    ensures accepts { (c : Command) → IsCommand command.now c → result ≢ bad_command }
    ensures refused { result ≡ bad_command → (written.new ≡ 0) × (out.new ≡ out.old) }
{
    *written = 0;
    let Some(c) = command_in(command) else {
        return BAD_COMMAND;
    };
    if unit > 15 {
        return BAD_VALUE;
    }
    put_bytes(c.encode(unit).as_slice(), out, written)
}

#[unsafe(no_mangle)]
pub extern "C" fn vdcp_command_of_message(message: &vdcp_message, command: &mut vdcp_command) -> i32
    ensures read { result ≢ bad_message → (m : Content) × IsContent message.now m
        × IsReadCommand (command_of m) result command.old command.new }
    ensures accepts { (m : Content) → IsContent message.now m → result ≢ bad_message }
    ensures refused { result ≡ bad_message → command.new ≡ command.old }
{
    let Some(message) = message_in(message) else {
        return BAD_MESSAGE;
    };
    match Command::read(&message) {
        Ok(read) => {
            put_command(&read, command);
            OK
        }
        Err(_) => BAD_COMMAND,
    }
}

#[unsafe(no_mangle)]
pub extern "C" fn vdcp_command_text(
    command: &vdcp_command,
    out: &mut [u8],
    written: &mut usize,
) -> i32
    ensures put { result ≢ bad_command → (c : Command) × IsCommand command.now c
        × IsPut (command_text c) out.old result written.new out.new }
    ensures accepts { (c : Command) → IsCommand command.now c → result ≢ bad_command }
    ensures refused { result ≡ bad_command → (written.new ≡ 0) × (out.new ≡ out.old) }
{
    *written = 0;
    let Some(c) = command_in(command) else {
        return BAD_COMMAND;
    };
    let mut text = ArrayString::new();
    c.show(&mut text);
    put_bytes(text.as_str().as_bytes(), out, written)
}

#[unsafe(no_mangle)]
pub extern "C" fn vdcp_command_of_text(text: &[u8], command: &mut vdcp_command) -> i32
    ensures read { result ≢ bad_command → (result ≡ pos 0)
        × (c : Command) × IsCommand command.new c × (command_text c ≡ text.now) }
    ensures accepts { (c : Command) → IsWritableCommand c → command_text c ≡ text.now →
        (result ≡ pos 0) × IsCommand command.new c }
    ensures refused { result ≡ bad_command → command.new ≡ command.old }
{
    match read_command(text) {
        Some(named) => {
            put_command(&named, command);
            OK
        }
        None => BAD_COMMAND,
    }
}

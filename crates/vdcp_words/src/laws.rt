//! Laws of the word tables: each function is there for its contract, which is the law.

ghost use Rattle.std.specs.Prelude.{◌≡◌, ◌<◌, ◌≤◌, ℕ, List, [], ◌∷◌, ◌++◌, All, Result, Ok};
ghost use Rattle.vdcp_frame.specs.Message.{Content, nak, Fits, spelling};
ghost use Rattle.vdcp_frame.specs.Reading.{End, clean, Reads};
ghost use Rattle.vdcp_words.specs.LawsBelow.{FrameLaws, ValueLaws};
ghost use Rattle.vdcp_words.specs.Messages.{unit_of, rest_of, IsFramed};
ghost use Rattle.vdcp_words.specs.Commands.{command_message, IsWritableCommand, ReadsCommand};
ghost use Rattle.vdcp_words.specs.Replies.{reply_message, IsWritableReply, ReadsReply};
ghost use Rattle.vdcp_words.specs.Computed.{command_of, reply_of};
ghost use Rattle.vdcp_words.specs.declared.command.Command.{Command};
ghost use Rattle.vdcp_words.specs.declared.reply.Reply.{Reply};
ghost use Rattle.vdcp_words.specs.declared.fault.WordFault.{WordFault};

use vdcp_frame::laws::{one_reading, one_spelling, written_is_read};
use vdcp_value::laws::{an_id_is_its_bytes, bytes_are_counted};

pub fn one_command()
    ensures some { (message : Content) → All (λ b. b < 256) (rest_of message) →
        ReadsCommand message (command_of message) }
    ensures only { (message : Content) (a b : Result Command WordFault) →
        ReadsCommand message a → ReadsCommand message b → a ≡ b }
{
    ids_are_bytes();
}

pub fn one_reply()
    ensures some { (message : Content) → All (λ b. b < 256) (rest_of message) →
        ReadsReply message (reply_of message) }
    ensures only { (message : Content) (a b : Result Reply WordFault) →
        ReadsReply message a → ReadsReply message b → a ≡ b }
{
    ids_are_bytes();
}

pub fn written_command_is_read()
    ensures read { (unit : ℕ) (command : Command) → IsWritableCommand command →
        ReadsCommand (command_message unit command) (Ok command) }
    ensures only { (unit : ℕ) (command : Command) (outcome : Result Command WordFault) →
        IsWritableCommand command → ReadsCommand (command_message unit command) outcome → outcome ≡ Ok command }
    ensures computed { (unit : ℕ) (command : Command) → IsWritableCommand command →
        command_of (command_message unit command) ≡ Ok command }
    ensures unit { (unit : ℕ) (command : Command) → unit_of (command_message unit command) ≡ unit }
{
    ids_are_bytes();
    one_command();
}

/// A reply with a state byte exactly if bit 0 of its bitmap asks for one is read back from its message.
pub fn written_reply_is_read()
    ensures read { (unit : ℕ) (reply : Reply) → IsWritableReply reply →
        ReadsReply (reply_message unit reply) (Ok reply) }
    ensures only { (unit : ℕ) (reply : Reply) (outcome : Result Reply WordFault) →
        IsWritableReply reply → ReadsReply (reply_message unit reply) outcome → outcome ≡ Ok reply }
    ensures computed { (unit : ℕ) (reply : Reply) → IsWritableReply reply →
        reply_of (reply_message unit reply) ≡ Ok reply }
    ensures unit { (unit : ℕ) (reply : Reply) → IsFramed (reply_message unit reply) →
        unit_of (reply_message unit reply) ≡ unit }
{
    ids_are_bytes();
    one_reply();
}

pub fn command_is_read_first()
    ensures fits { (unit : ℕ) (command : Command) → unit ≤ 15 → IsWritableCommand command →
        Fits (command_message unit command) }
    ensures first { (unit : ℕ) (command : Command) (more : List ℕ) (ms : List Content) (end : End) →
        unit ≤ 15 → IsWritableCommand command → Reads (spelling (command_message unit command) ++ more) ms end →
        (others : List Content) × (ms ≡ command_message unit command ∷ others) }
{
    ids_are_bytes();
    bursts_are_read();
}

pub fn reply_is_read_first()
    ensures fits { (unit : ℕ) (reply : Reply) → unit ≤ 15 → IsWritableReply reply →
        Fits (reply_message unit reply) }
    ensures first { (unit : ℕ) (reply : Reply) (more : List ℕ) (ms : List Content) (end : End) →
        unit ≤ 15 → IsWritableReply reply → Reads (spelling (reply_message unit reply) ++ more) ms end →
        (others : List Content) × (ms ≡ reply_message unit reply ∷ others) }
{
    ids_are_bytes();
    bursts_are_read();
}

pub fn no_bytes_are_no_message()
    ensures { (ms : List Content) (end : End) → Reads [] ms end → (ms ≡ []) × (end ≡ clean) }
{
    bursts_are_read();
}

/// The server's NAK at a burst's end: 04h after a fault, 80h inside a message.
pub fn naks_of_a_burst_end()
    ensures fault { (ms : List Content) (end : End) → Reads (5 ∷ 0x04 ∷ []) ms end →
        (ms ≡ nak 0x04 ∷ []) × (end ≡ clean) }
    ensures cut { (ms : List Content) (end : End) → Reads (5 ∷ 0x80 ∷ []) ms end →
        (ms ≡ nak 0x80 ∷ []) × (end ≡ clean) }
{
    bursts_are_read();
}

fn ids_are_bytes()
    ensures { ValueLaws }
{
    bytes_are_counted();
    an_id_is_its_bytes();
}

fn bursts_are_read()
    ensures { FrameLaws }
{
    one_spelling();
    one_reading();
    written_is_read();
}

//! A command, read from its text.
ghost use Rattle.std.specs.Prelude.{◌≡◌, ◌∷◌, ◌++◌, ℕ, IfSome, IsSomeAnd, List, Some, length};
ghost use Rattle.vdcp_words.specs.Commands.{IsWritableCommand};
ghost use Rattle.vdcp_words.specs.Texts.{command_text};
ghost use Rattle.vdcp_words.specs.declared.command.Command.{Command};

use crate::make::{with_none, with_one, with_three, with_two};
use arrayvec::ArrayString;
use vdcp_value::laws::{a_text_says_its_id, an_id_has_one_text, the_text_of_an_id_is_short};
use vdcp_words::Command;

/// Reads what `Command::show` writes: the words of `do_make` with one space between them and lower-case digits.
pub fn read_command(text: &[u8]) -> Option<Command>
    ensures read { IfSome result (λ c. command_text c ≡ text.now) }
    ensures accepts { (c : Command) → IsWritableCommand c → command_text c ≡ text.now → result ≡ Some c }
{
    the_text_of_an_id_is_short();
    let text = str::from_utf8(text).ok()?;
    let command = command_in(text)?;
    let mut shown = ArrayString::<64>::new();
    command.show(&mut shown);
    if shown.as_str() == text {
        Some(command)
    } else {
        None
    }
}

// If the text is no command's it may give any command: the caller compares.
fn command_in(text: &str) -> Option<Command>
    ensures { (c : Command) → IsWritableCommand c → command_text c ≡ text.now → result ≡ Some c }
{
    an_id_has_one_text();
    a_text_says_its_id();
    let Some((word, rest)) = text.split_once(' ') else {
        return with_none(text);
    };
    match word {
        "open" => {
            let (port, lock) = rest.split_once(' ')?;
            with_two(word, port, lock)
        }
        "cue-data" => {
            let (id, start, duration) = part_in(rest)?;
            with_three(word, id, start, duration)
        }
        _ => with_one(word, rest),
    }
}

// It is read from its end, since the ID may have spaces.
fn part_in(text: &str) -> Option<(&str, &str, &str)>
    ensures { (id start duration : List ℕ) → text.now ≡ id ++ 32 ∷ (start ++ 32 ∷ duration) →
        length start ≡ 8 → length duration ≡ 8 →
        IsSomeAnd result (λ p. (p.0.now ≡ id) × (p.1.now ≡ start) × (p.2.now ≡ duration)) }
{
    let (id, times) = text.split_at_checked(text.len().checked_sub(18)?)?;
    let (start, duration) = times.split_at_checked(9)?;
    Some((id, start.strip_prefix(' ')?, duration.strip_prefix(' ')?))
}

//! The names of files as text.
use crate::text::ByteText;
use std::fmt;

/// Shows a file's name, each control character as `\x` and two hexadecimal digits, so that none reaches a terminal.
#[derive(Clone, Copy)]
pub struct NameText<'a>(pub &'a str);

impl fmt::Display for NameText<'_> {
    ghost use Rattle.std.specs.Prelude.{Some};
    ghost use Rattle.vdcp_text.specs.Text.{shown_name};

    ghost output = { λ n. Some (shown_name n.0.now) };

    fn fmt<W: fmt::Write>(&self, f: &mut fmt::Formatter<W>) -> fmt::Result {
        for c in self.0.chars() {
            let c = CharText(c);
            write!(f, "{c}")?;
        }
        Ok(())
    }
}

#[derive(Clone, Copy)]
struct CharText(char);

impl fmt::Display for CharText {
    ghost use Rattle.std.specs.Prelude.{Some};
    ghost use Rattle.vdcp_text.specs.Text.{shown_char};

    ghost output = { λ c. Some (shown_char c.0) };

    fn fmt<W: fmt::Write>(&self, f: &mut fmt::Formatter<W>) -> fmt::Result {
        if !self.0.is_control() {
            return f.write_char(self.0);
        }
        let byte = ByteText(self.0 as u8);
        write!(f, "\\x{byte}")
    }
}

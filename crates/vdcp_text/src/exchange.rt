//! Exchanges as text.
use arrayvec::ArrayString;
use std::fmt;
use vdcp_auto::{Exchange, Heard};

#[derive(Clone, Copy)]
struct HeardText(Option<Heard>);

impl fmt::Display for HeardText {
    ghost use Rattle.std.specs.Prelude.{Some};
    ghost use Rattle.vdcp_text.specs.Exchange.{heard_text};

    ghost output = { λ h. Some (heard_text h.0) };

    fn fmt<W: fmt::Write>(&self, f: &mut fmt::Formatter<W>) -> fmt::Result {
        match self.0 {
            None => f.write_str("silence"),
            Some(Heard::Other) => f.write_str("other"),
            Some(Heard::Reply(reply)) => {
                let mut text = ArrayString::<64>::new();
                reply.show(&mut text);
                let text = text.as_str();
                write!(f, "{text}")
            }
        }
    }
}

/// Shows `COMMAND -> HEARD`; for a time-out HEARD is `silence`, for what is no reply `other`.
#[derive(Clone, Copy)]
pub struct ExchangeText(pub Exchange);

impl fmt::Display for ExchangeText {
    ghost use Rattle.std.specs.Prelude.{Some};
    ghost use Rattle.vdcp_text.specs.Exchange.{exchange_text};

    ghost output = { λ e. Some (exchange_text e.0) };

    fn fmt<W: fmt::Write>(&self, f: &mut fmt::Formatter<W>) -> fmt::Result {
        let mut command = ArrayString::<64>::new();
        self.0.command.show(&mut command);
        let command = command.as_str();
        let heard = HeardText(self.0.heard);
        write!(f, "{command} -> {heard}")
    }
}

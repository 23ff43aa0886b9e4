//! Outcomes as text.
use std::fmt;
use vdcp_auto::Outcome;

/// Shows how a controller ended, or `open` if it hasn't.
#[derive(Clone, Copy)]
pub struct OutcomeText(pub Option<Outcome>);

impl fmt::Display for OutcomeText {
    ghost use Rattle.std.specs.Prelude.{Some};
    ghost use Rattle.vdcp_text.specs.Outcome.{outcome_text};

    ghost output = { λ o. Some (outcome_text o.0) };

    fn fmt<W: fmt::Write>(&self, f: &mut fmt::Formatter<W>) -> fmt::Result {
        match self.0 {
            None => f.write_str("open"),
            Some(Outcome::Done) => f.write_str("done"),
            Some(Outcome::Stopped) => f.write_str("stopped"),
            Some(Outcome::Lost) => f.write_str("lost"),
            Some(Outcome::Denied) => f.write_str("denied"),
            Some(Outcome::Missing(k)) => write!(f, "missing {k}"),
            Some(Outcome::Refused(k)) => write!(f, "refused {k}"),
            Some(Outcome::Foreign(k)) => write!(f, "foreign {k}"),
            Some(Outcome::Strange(k)) => write!(f, "strange {k}"),
        }
    }
}

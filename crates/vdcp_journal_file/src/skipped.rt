//! Why events were left out between two runs of a journal.
ghost use Rattle.std.specs.Prelude.{◌≡◌, IfOk, length};
ghost use Rattle.vdcp_journal_file.specs.Showing.{is_left_out, leaves_out, reasons, why_skipped};

use std::alloc::{AllocError, Global};
use vdcp_auto::{ListCall, Outcome};
use vdcp_list::Timed;

/// Why an event stands between two runs, and neither plays it.
#[derive(Clone, Copy, Debug)]
pub(crate) enum Skipped {
    /// The first run ended with it, since the server didn't have its clip.
    Missing,
    /// The first run ended with it, since a command was refused.
    Refused,
    /// It may have aired, in the first run or before that.
    Unsure,
    /// An operator left it out, or began the next run with a later event.
    ByHand,
}

// It has no times, since it isn't known to have aired.
impl Timed for Skipped {
    ghost use Rattle.std.specs.Prelude.{[]};
    ghost use Rattle.vdcp_journal_file.specs.Showing.{skipped_end};

    ghost played = { λ skipped. [] };

    ghost known = { λ skipped. [] };

    ghost ended = { λ skipped. [] };

    ghost end = { skipped_end };

    fn played(&self) -> &[u8] {
        &[]
    }

    fn known(&self) -> &[u8] {
        &[]
    }

    fn ended(&self) -> &[u8] {
        &[]
    }

    fn end(&self) -> &[u8] {
        let text = match self {
            Skipped::Missing => "skipped: missing",
            Skipped::Refused => "skipped: refused",
            Skipped::Unsure => "skipped: unsure",
            Skipped::ByHand => "skipped: by hand",
        };
        text.as_bytes()
    }
}

/// Whether one of these calls leaves out the event.
pub(crate) fn is_left_out(calls: &[ListCall], event: usize) -> bool
    ensures { result ≡ is_left_out calls.now event }
{
    calls.iter().any(|call| leaves_out(*call, event))
}

fn leaves_out(call: ListCall, event: usize) -> bool
    ensures { result ≡ leaves_out call event }
{
    match call {
        ListCall::Skip { first, end } => first <= event && event < end,
        ListCall::Hold | ListCall::Go => false,
    }
}

/// Why the first event that a run doesn't report was left out. `said` says whether a call leaves it out.
pub(crate) fn why_skipped(unsure: Option<usize>, said: bool, outcome: Option<Outcome>) -> Skipped
    ensures { result ≡ why_skipped unsure said outcome }
{
    match (unsure, outcome) {
        (Some(_), _) => Skipped::Unsure,
        (None, Some(Outcome::Missing(_))) if !said => Skipped::Missing,
        (None, Some(Outcome::Refused(_))) if !said => Skipped::Refused,
        (None, _) => Skipped::ByHand,
    }
}

/// Gives a reason for each of `count` events that were left out in a row: `first` for the first one, by hand for the others.
pub(crate) fn reasons(
    alloc: Global,
    count: usize,
    first: Skipped,
) -> Result<Vec<Skipped>, AllocError>
    ensures are { IfOk result (λ all. all.items ≡ reasons count first) }
    ensures one_each { IfOk result (λ all. length all.items ≡ count) }
{
    let mut all = vec![in alloc; Skipped::ByHand; count]?;
    if !all.is_empty() {
        all[0] = first;
    }
    Ok(all)
}

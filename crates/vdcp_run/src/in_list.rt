//! Numbers of events in the whole list, of which a controller plays the rest from an event on.
ghost use Rattle.std.specs.Prelude.{◌≡◌, ◌+◌};
ghost use Rattle.vdcp_run.specs.Ends.{event_in_list, outcome_in_list};

use vdcp_auto::{Controller, Outcome, Source};
use vdcp_list::Rest;

/// The first event that the controller doesn't report.
pub fn reported_in_list<S: Source>(controller: &Controller<Rest<S>>) -> usize
    ensures { result ≡ controller.now.source.from + controller.now.state.settled }
{
    controller.source().from() + controller.settled()
}

pub fn outcome_in_list(from: usize, outcome: Option<Outcome>) -> Option<Outcome>
    ensures { result ≡ outcome_in_list from outcome }
{
    match outcome? {
        Outcome::Missing(k) => Some(Outcome::Missing(event_in_list(from, k))),
        Outcome::Refused(k) => Some(Outcome::Refused(event_in_list(from, k))),
        Outcome::Foreign(k) => Some(Outcome::Foreign(event_in_list(from, k))),
        Outcome::Strange(k) => Some(Outcome::Strange(event_in_list(from, k))),
        other => Some(other),
    }
}

fn event_in_list(from: usize, k: usize) -> usize
    ensures { result ≡ event_in_list from k }
{
    from.saturating_add(k)
}

//! What an operator's calls on the list come to.
ghost use Rattle.std.specs.Prelude.{◌≡◌, [], false};
ghost use Rattle.vdcp_operator.specs.OnList.{has_room_for, list_after, list_by, sparing, sparing_each};

use crate::left_out::{LeftOut, Span};
use vdcp_auto::ListCall;

/// Whether a run's list is held, and what is left out of it.
#[derive(Drop)]
pub struct OnList {
    /// Nothing new goes to air after what plays.
    pub holds: bool,
    pub left_out: LeftOut,
}

impl OnList {
    pub fn new(stays: bool) -> Self
        ensures holds { result.holds ≡ false }
        ensures stays { result.left_out.stays ≡ stays }
        ensures none { result.left_out.spans.items ≡ [] }
    {
        OnList {
            holds: false,
            left_out: LeftOut::new(stays),
        }
    }

    /// Does what the call says, and answers whether there was room for it.
    pub fn heed(&mut self, call: ListCall) -> bool
        ensures room { result ≡ has_room_for self.old call }
        ensures list { self.new ≡ list_after call self.old }
    {
        match call {
            ListCall::Hold => {
                self.holds = true;
                true
            }
            ListCall::Go => {
                self.holds = false;
                true
            }
            ListCall::Skip { first, end } => self.left_out.add(Span { first, end }),
        }
    }

    /// Heeds these calls in order, but leaves out no event that is wanted all the same.
    pub fn heed_all(&mut self, calls: &[ListCall], wanted: Option<usize>)
        ensures { self.new ≡ list_by (sparing_each wanted calls.now) self.old }
    {
        for k in 0..calls.len() {
            match (calls[k], wanted) {
                (ListCall::Skip { first, end }, Some(event)) => {
                    self.left_out.add(Span {
                        first,
                        end: end.min(event),
                    });
                    self.left_out.add(Span {
                        first: first.max(event.saturating_add(1)),
                        end,
                    });
                }
                (call, _) => {
                    self.heed(call);
                }
            }
        }
    }
}

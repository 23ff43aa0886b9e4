//! The calls that were said and aren't kept yet.
ghost use Rattle.std.specs.Prelude.{◌≡◌};
ghost use Rattle.vdcp_operator.specs.Waiting.{is_called, call_at, first_held, will_hold};

use crate::ahead::Ahead;
use crate::left_out::{CallFault, LeftOut, Span};
use crate::typed::Said;
use arrayvec::ArrayVec;
use vdcp_auto::ListCall;
use vdcp_drive::Call;

// The most calls that can wait.
const MOST_WAITING: usize = 16;

/// In the order in which they are given.
pub type Waiting = ArrayVec<Said, MOST_WAITING>;

/// The call as which something is obeyed, if it can be.
pub fn call_at(left_out: &LeftOut, ahead: Ahead, said: Said) -> Result<Call, CallFault>
    ensures { result ≡ call_at left_out.now ahead said }
{
    let Span { first, end } = match said {
        Said::Take => return Ok(Call::Take),
        Said::Stop => return Ok(Call::Stop),
        Said::Hold => return Ok(Call::List(ListCall::Hold)),
        Said::Go => return Ok(Call::List(ListCall::Go)),
        Said::Skip(event) => left_out.skip(event, ahead)?,
        Said::Jump(event) => left_out.jump(event, ahead)?,
        Said::Other => return Err(CallFault::NoCall),
    };
    Ok(Call::List(ListCall::Skip { first, end }))
}

pub fn first_held(waiting: &Waiting) -> Option<Said>
    ensures { result ≡ first_held waiting.now.items }
{
    match waiting.as_slice() {
        [] => None,
        [first, ..] => Some(*first),
    }
}

/// Whether one of them is take or stop.
pub fn is_called(calls: &[Said]) -> bool
    ensures { result ≡ is_called calls.now }
{
    match calls {
        [] => false,
        [Said::Take | Said::Stop, ..] => true,
        [_, rest @ ..] => is_called(rest),
    }
}

/// Whether the list is held once they are obeyed.
pub fn will_hold(calls: &[Said], holds: bool) -> bool
    ensures { result ≡ will_hold calls.now holds }
{
    match calls {
        [] => holds,
        [Said::Hold, rest @ ..] => will_hold(rest, true),
        [Said::Go, rest @ ..] => will_hold(rest, false),
        [_, rest @ ..] => will_hold(rest, holds),
    }
}

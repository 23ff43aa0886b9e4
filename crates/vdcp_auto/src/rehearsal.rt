//! Runs of a new controller over a list of inputs, with no line.
ghost use Rattle.std.specs.Prelude.{◌≡◌, ◌≤◌, IfOk};
ghost use Rattle.vdcp_auto.specs.Plan.{plan_of};
ghost use Rattle.vdcp_auto.specs.RuleBook.{KeepsRules};
ghost use Rattle.vdcp_auto.specs.declared.phase.Mode.TheVariants.{Plain, Confirming};
ghost use Rattle.vdcp_auto.specs.Course.{course, course_from};

use crate::controller::Controller;
use crate::exchange::{Exchange, Input};
use crate::source::Source;
use std::alloc::{AllocError, Allocator};

/// The exchanges of a new controller in plain mode with these inputs. It is ticked before each `Heard` or `Silence` if
/// nothing is awaited; once it has ended, the other inputs are left.
pub fn rehearse<S: Source + Drop, A: Allocator>(
    alloc: A,
    source: S,
    port: u8,
    limit: u32,
    inputs: &[Input],
) -> Result<Vec<Exchange, A>, AllocError>
    requires some { 1 ≤ limit }
    requires few { limit ≤ 1000 }
    ensures course { IfOk result (λ log. log.items
        ≡ course (record { mode = Plain; list = S.items source; port = port; limit = limit }) inputs.now) }
    ensures allowed { IfOk result (λ log. KeepsRules Plain (S.items source) log.items) }
{
    run(alloc, Controller::new(source, port, limit), inputs)
}

/// As `rehearse`, in confirm mode.
pub fn rehearse_confirming<S: Source + Drop, A: Allocator>(
    alloc: A,
    source: S,
    port: u8,
    limit: u32,
    inputs: &[Input],
) -> Result<Vec<Exchange, A>, AllocError>
    requires some { 1 ≤ limit }
    requires few { limit ≤ 1000 }
    ensures course { IfOk result (λ log. log.items
        ≡ course (record { mode = Confirming; list = S.items source; port = port; limit = limit }) inputs.now) }
    ensures allowed { IfOk result (λ log. KeepsRules Confirming (S.items source) log.items) }
{
    run(alloc, Controller::confirming(source, port, limit), inputs)
}

fn run<S: Source + Drop, A: Allocator>(
    alloc: A,
    mut controller: Controller<S>,
    inputs: &[Input],
) -> Result<Vec<Exchange, A>, AllocError>
    ensures { IfOk result (λ log. log.items ≡ course_from (plan_of S.items controller) controller.state inputs.now) }
{
    let mut log = Vec::new(alloc);
    for input in inputs {
        let came = match input {
            Input::Take => {
                controller.take();
                continue;
            }
            Input::Stop => {
                controller.stop();
                continue;
            }
            Input::Heard(heard) => Some(*heard),
            Input::Silence => None,
        };
        controller.tick();
        if controller.awaited().is_none() {
            return Ok(log);
        }
        if let Some(exchange) = controller.receive(came) {
            log.push(exchange)?;
        }
    }
    Ok(log)
}

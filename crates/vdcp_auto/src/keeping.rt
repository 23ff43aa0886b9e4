//! The first forbidden command of a whole log.
ghost use Rattle.std.specs.Prelude.{[], IfNone, IfSome, IsSomeAnd, slice_get, take};
ghost use Rattle.vdcp_auto.specs.RuleBook.{KeepsRules, May};
ghost use Rattle.vdcp_auto.specs.Judging.{Knows};

use crate::exchange::Exchange;
use crate::judge::Judge;
use crate::source::Source;

/// The place, from 0, of the first exchange whose command the rule book forbids; `None` if the log keeps the rules.
pub fn first_forbidden<S: Source + Drop>(mut judge: Judge<S>, log: &[Exchange]) -> Option<usize>
    requires new { Knows S.items [] judge }
    ensures keeps { IfNone result (KeepsRules judge.mode (S.items judge.source) log.now) }
    ensures first { IfSome result (λ k. KeepsRules judge.mode (S.items judge.source) (take k log.now)) }
    ensures forbidden { IfSome result (λ k. IsSomeAnd (slice_get log.now k)
        (λ e. ¬ May judge.mode (S.items judge.source) (take k log.now) e.command)) }
{
    for k in 0..log.len() {
        let exchange = &log[k];
        if !judge.allows(&exchange.command) {
            return Some(k);
        }
        judge.add(exchange);
    }
    None
}

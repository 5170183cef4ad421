//! What would follow if one operation were before another.

ghost use Rattle.std.specs.Prelude.{◌≡◌, ◌<◌, length};
ghost use Rattle.execution.specs.Calls.{ops};
ghost use Rattle.theory.specs.Order.{Settled};
ghost use Rattle.order.specs.Rows.{rows_of};
ghost use Rattle.rules.specs.Trials.{Found};

use super::closing::close_under_rules;
use super::size::size;
use execution::Execution;
use order::{Order, Restore};

/// Records a before b and closes the order; says how many pairs that added, and whether some operation now comes before itself.
fn suppose(execution: &Execution, order: &mut Order, a: usize, b: usize) -> (u32, bool)
    requires settled { Settled (length (ops execution.now)) (rows_of execution.now order.old) }
    requires a_in_bounds { a < length (ops execution.now) }
    requires b_in_bounds { b < length (ops execution.now) }
    ensures { Found (ops execution.now) (rows_of execution.now order.old) a b result }
{
    let n = size(execution);
    let had = order.pairs(n);
    order.record(a, b);
    close_under_rules(execution, order);
    (order.pairs(n) - had, order.cyclic(n))
}

/// How many pairs would be added if a were before b, and whether some operation would then come before itself.
/// The order is lent for the trial, and is again as it was when the answer is given.
pub fn what_if(execution: &Execution, order: &mut Order, a: usize, b: usize) -> (u32, bool)
    requires settled { Settled (length (ops execution.now)) (rows_of execution.now order.old) }
    requires a_in_bounds { a < length (ops execution.now) }
    requires b_in_bounds { b < length (ops execution.now) }
    ensures kept { order.new ≡ order.old }
    ensures supposed { Found (ops execution.now) (rows_of execution.now order.old) a b result }
{
    let guard = Restore::lend(order);
    suppose(execution, guard.order, a, b)
}

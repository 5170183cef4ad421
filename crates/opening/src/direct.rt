//! The opening order: the local order and each source before its load, made transitive.

ghost use Rattle.std.specs.Prelude.{◌≡◌, ◌<◌, length};
ghost use Rattle.execution.specs.Calls.{ops};
ghost use Rattle.theory.specs.Order.{before, Settled, Says};
ghost use Rattle.theory.specs.Serial.{direct, Opening};
ghost use Rattle.order.specs.Rows.{rows_of};
ghost use Rattle.opening.specs.Orders.{Within};

use execution::Execution;
use order::Order;

/// Is a before b at once, by the local order or as the source of b?
fn is_direct(execution: &Execution, local: &Order, a: usize, b: usize) -> bool
    requires a_in_bounds { a < length (ops execution.now) }
    requires b_in_bounds { b < length (ops execution.now) }
    ensures { result ≡ direct (before (rows_of execution.now local.now)) (ops execution.now) a b }
{
    local.stands(execution.len(), a, b) || execution.source(b) == Some(a)
}

/// The opening order over a local order, which names operations only. Each record takes over what follows from the pairs before it.
pub fn opening_order(execution: &Execution, local: &Order) -> Order
    requires { Within (length (ops execution.now)) (rows_of execution.now local.now) }
    ensures says { Says (ops execution.now) (rows_of execution.now result) (Opening (before (rows_of execution.now local.now)) (ops execution.now)) }
    ensures settled { Settled (length (ops execution.now)) (rows_of execution.now result) }
{
    let n = execution.len();
    let mut order = Order::empty();
    // A plain loop, since each record changes the order that the next one starts from.
    for a in 0..n {
        for b in 0..n {
            if is_direct(execution, local, a, b) {
                order.record(a, b);
            }
        }
    }
    order
}

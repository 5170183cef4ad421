//! The pairs of stores that an order leaves undecided.

ghost use Rattle.std.specs.Prelude.{◌≡◌, ◌<◌, ◌≤◌, length, count_by};
ghost use Rattle.std.specs.List.{range_with_len};
ghost use Rattle.execution.specs.Calls.{ops};
ghost use Rattle.theory.specs.Order.{undecided_pair, undecided as undecided_in};
ghost use Rattle.order.specs.Rows.{rows_of};

use execution::Execution;
use order::Order;

// Not `Order::leaves_open` and `s < t`: asked in this order it takes the least time.
/// Are these different stores to one address, the lower number first, neither before the other?
fn is_undecided(execution: &Execution, order: &Order, s: usize, t: usize) -> bool
    requires s_in_bounds { s < length (ops execution.now) }
    requires t_in_bounds { t < length (ops execution.now) }
    ensures { result ≡ undecided_pair (ops execution.now) (rows_of execution.now order.now) s t }
{
    let n = execution.len();
    execution.rivals(s, t) && s < t && !order.stands(n, s, t) && !order.stands(n, t, s)
}

/// How many stores of a higher number are undecided against this one.
fn undecided_with(execution: &Execution, order: &Order, s: usize) -> u32
    requires { s < length (ops execution.now) }
    ensures counted { result ≡ count_by (undecided_pair (ops execution.now) (rows_of execution.now order.now) s) (range_with_len 0 (length (ops execution.now))) }
    ensures few { result ≤ 32 }
{
    // Counted one by one: `filter` and `count`, and `map` and `sum`, took longer.
    let mut count = 0;
    for t in 0..execution.len() {
        if is_undecided(execution, order, s, t) {
            count += 1;
        }
    }
    count
}

/// How many pairs are undecided: different stores to one address, neither before the other, each pair counted once.
pub fn undecided(execution: &Execution, order: &Order) -> u32
    ensures counted { result ≡ undecided_in (ops execution.now) (rows_of execution.now order.now) }
    ensures few { result ≤ 496 }
{
    (0..execution.len())
        .map(|s| undecided_with(execution, order, s))
        .sum()
}

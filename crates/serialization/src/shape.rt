//! Orders that name what is not there, or do not name each operation once.

ghost use Rattle.std.specs.Prelude.{◌≡◌, map, length, nat_le, nat_lt};
ghost use Rattle.execution.specs.Calls.{ops};
ghost use Rattle.theory.specs.Lists.{any, count as count_in};
ghost use Rattle.theory.specs.Case.{propose, misshapen};

use super::places::count;
use execution::Execution;

/// Does the order name a number that no operation has?
pub fn names_unknown(execution: &Execution, order: &[u8]) -> bool
    ensures { result ≡ any (map (λ a. nat_le (length (ops execution.now)) a) order.now) }
{
    let n = execution.len();
    order.iter().any(|number| usize::from(*number) >= n)
}

/// Does the order name a number twice?
fn names_twice(order: &[u8]) -> bool
    ensures { result ≡ any (map (λ a. nat_lt 1 (count_in order.now a)) order.now) }
{
    order
        .iter()
        .any(|number| count(order, usize::from(*number)) > 1)
}

/// Is the order longer or shorter than the execution, or does it name an operation twice?
pub fn is_misshapen(execution: &Execution, order: &[u8]) -> bool
    ensures { result ≡ misshapen (ops execution.now) (propose order.now) }
{
    order.len() != execution.len() || names_twice(order)
}

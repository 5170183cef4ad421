//! How far scans go.

ghost use Rattle.std.specs.Prelude.{◌≡◌, ◌≤◌, length};
ghost use Rattle.execution.specs.Calls.{ops};

use execution::Execution;

/// How many operations there are: so few that an order has a row for each, and each number is a byte.
pub(super) fn size(execution: &Execution) -> usize
    ensures all { result ≡ length (ops execution.now) }
    ensures few { result ≤ 32 }
{
    execution.len()
}

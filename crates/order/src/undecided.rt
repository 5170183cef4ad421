//! What an order leaves to be split.

ghost use Rattle.std.specs.Prelude.{◌≡◌, ◌<◌, length};
ghost use Rattle.execution.specs.Calls.{ops};
ghost use Rattle.theory.specs.Case.{lacks, split};
ghost use Rattle.order.specs.Rows.{rows_of};

use super::order::Order;
use execution::Execution;

impl Order {
    /// Are these different stores to one address, neither before the other?
    pub fn leaves_open(&self, execution: &Execution, s: usize, t: usize) -> bool
        requires s_in_bounds { s < length (ops execution.now) }
        requires t_in_bounds { t < length (ops execution.now) }
        ensures { result ≡ lacks (ops execution.now) (rows_of execution.now self.now) (split s t) }
    {
        let n = execution.len();
        execution.rivals(s, t) && !self.stands(n, s, t) && !self.stands(n, t, s)
    }
}

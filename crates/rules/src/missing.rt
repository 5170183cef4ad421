//! What the three rules still ask for.

ghost use Rattle.std.specs.Prelude.{◌≡◌};
ghost use Rattle.execution.specs.Calls.{ops};
ghost use Rattle.theory.specs.Lists.{first_by};
ghost use Rattle.theory.specs.Case.{lacks, claims};
ghost use Rattle.order.specs.Rows.{rows_of};
ghost use Rattle.rules.specs.Claims.{called};

use super::claim::Claim;
use super::rule_a::first_a;
use super::rule_b::first_b;
use super::rule_c::first_c;
use execution::Execution;
use order::Order;

/// The first of all claims by the three rules that the order lacks: by rule a, else by b, else by c.
pub fn first_missing(execution: &Execution, order: &Order) -> Option<Claim>
    ensures { called result ≡ first_by (lacks (ops execution.now) (rows_of execution.now order.now)) (claims (ops execution.now)) }
{
    first_a(execution, order)
        .or_else(|| first_b(execution, order))
        .or_else(|| first_c(execution, order))
}

//! Closing an order under the three rules: what they ask for is recorded until they ask for nothing more.

ghost use Rattle.std.specs.Prelude.{◌≡◌, ℕ, ◌<◌, Bool, length, MatchOption};
ghost use Rattle.execution.specs.Calls.{ops};
ghost use Rattle.theory.specs.Order.{before, Settled, Says};
ghost use Rattle.theory.specs.Serial.{Derived, Opening, Least};
ghost use Rattle.theory.specs.Lists.{first_by};
ghost use Rattle.theory.specs.Case.{pair, with_pair, lacks, claims};
ghost use Rattle.order.specs.Rows.{rows_of};
ghost use Rattle.rules.specs.Claims.{call_of, called};

use super::claim::Claim;
use super::missing::first_missing;
use execution::Execution;
use order::Order;

/// Records the pair of a claim.
fn record_claim(execution: &Execution, order: &mut Order, claim: Claim)
    requires first_in_bounds { (pair (ops execution.now) (call_of claim)).0 < 32 }
    requires second_in_bounds { (pair (ops execution.now) (call_of claim)).1 < 32 }
    ensures { order.new.rows ≡ with_pair (ops execution.now) order.old.rows (call_of claim) }
{
    let (a, b) = claim.pair(execution);
    order.record(a, b);
}

/// Records the first pair that the rules ask for and the order lacks, and says by which claim.
pub fn record_first(execution: &Execution, order: &mut Order) -> Option<Claim>
    ensures first { called result ≡ first_by (lacks (ops execution.now) (rows_of execution.now order.old)) (claims (ops execution.now)) }
    ensures recorded { MatchOption result (order.new ≡ order.old) (λ claim. order.new.rows ≡ with_pair (ops execution.now) order.old.rows (call_of claim)) }
    ensures settled { Settled (length (ops execution.now)) (rows_of execution.now order.old) → Settled (length (ops execution.now)) (rows_of execution.now order.new) }
{
    let claim = first_missing(execution, order)?;
    record_claim(execution, order, claim);
    Some(claim)
}

// The execution and the order are two parameters, here and wherever both stand: a case holds the execution in the value that never changes
// and the order in the value that does, so that a struct of both would be built anew at each call.
// That an order is settled is a clause, and is asked only where it is needed: the rules take any order.
/// Closes the order under the three rules: it then says exactly what follows from what it said.
/// From the opening order that is the least order.
pub fn close_under_rules(execution: &Execution, order: &mut Order)
    requires { Settled (length (ops execution.now)) (rows_of execution.now order.old) }
    ensures closed { Says (ops execution.now) (rows_of execution.now order.new) (Derived (ops execution.now) (before (rows_of execution.now order.old))) }
    ensures least { (L : ℕ → ℕ → Bool) → Says (ops execution.now) (rows_of execution.now order.old) (Opening L (ops execution.now)) → Says (ops execution.now) (rows_of execution.now order.new) (Least L (ops execution.now)) }
    ensures settled { Settled (length (ops execution.now)) (rows_of execution.now order.new) }
{
    while let Some(claim) = first_missing(execution, order) {
        record_claim(execution, order, claim);
    }
}

/// The least order of an execution, from its opening order: what stands in every serialization by the rules alone.
pub fn least_order(execution: &Execution, opening: &Order) -> Order
    requires { Settled (length (ops execution.now)) (rows_of execution.now opening.now) }
    ensures { (L : ℕ → ℕ → Bool) → Says (ops execution.now) (rows_of execution.now opening.now) (Opening L (ops execution.now)) → Says (ops execution.now) (rows_of execution.now result) (Least L (ops execution.now)) }
{
    let mut least = *opening;
    close_under_rules(execution, &mut least);
    least
}

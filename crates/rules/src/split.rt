//! Splits: where no rule asks for more, two stores to one address are tried one way and then the other.

ghost use Rattle.std.specs.Prelude.{◌≡◌};
ghost use Rattle.execution.specs.Calls.{ops};
ghost use Rattle.theory.specs.Lists.{first_by};
ghost use Rattle.theory.specs.Case.{lacks, splits};
ghost use Rattle.order.specs.Rows.{rows_of};
ghost use Rattle.rules.specs.Claims.{called};

use super::claim::Claim;
use super::size::size;
use execution::Execution;
use order::Order;

/// The first split that the order leaves open: by lower store, then by higher.
pub fn first_split(execution: &Execution, order: &Order) -> Option<Claim>
    ensures { called result ≡ first_by (lacks (ops execution.now) (rows_of execution.now order.now)) (splits (ops execution.now)) }
{
    // Not the scan of rules a and b: nothing here has a source, and the second store begins after the first.
    let n = size(execution);
    let mut found = None;
    'scan: for s in 0..n {
        for t in s + 1..n {
            if order.leaves_open(execution, s, t) {
                found = Some(Claim::Split {
                    s: s as u8,
                    t: t as u8,
                });
                break 'scan;
            }
        }
    }
    found
}

//! Rule a: a store to the address of a load that is before the load, and is not the store that the load saw, is before the store that the load saw.

ghost use Rattle.std.specs.Prelude.{◌≡◌};
ghost use Rattle.execution.specs.Calls.{ops};
ghost use Rattle.theory.specs.Lists.{first_by};
ghost use Rattle.theory.specs.Case.{lacks, claim_a, claims_a};
ghost use Rattle.order.specs.Rows.{rows_of};
ghost use Rattle.rules.specs.Claims.{called};
ghost use Rattle.rules.specs.Scans.{Asked};

use super::claim::Claim;
use super::scan::first_pair;
use super::size::size;
use execution::Execution;
use order::Order;

/// Does rule a of the load, which saw the source, put the store before the source, where the order does not say so yet?
fn lacks_a(execution: &Execution, order: &Order, load: usize, source: usize, store: usize) -> bool
    requires { Asked (ops execution.now) load source store }
    ensures { result ≡ lacks (ops execution.now) (rows_of execution.now order.now) (claim_a load store) }
{
    let n = size(execution);
    execution.touches(store, load)
        && store != source
        && order.stands(n, store, load)
        && !order.stands(n, store, source)
}

/// The first claim by rule a that the order lacks: by load, then by store.
pub fn first_a(execution: &Execution, order: &Order) -> Option<Claim>
    ensures { called result ≡ first_by (lacks (ops execution.now) (rows_of execution.now order.now)) (claims_a (ops execution.now)) }
{
    first_pair(execution, |load, source, store| {
        lacks_a(execution, order, load, source, store)
    })
    .map(|(load, store)| Claim::A { load, store })
}

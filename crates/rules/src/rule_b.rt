//! Rule b: a store to the address of a load that is after the store that the load saw is after the load.

ghost use Rattle.std.specs.Prelude.{◌≡◌, ℕ, ◌<◌, not, ◌&&◌};
ghost use Rattle.order.specs.Bits.{bit};
ghost use Rattle.theory.specs.Order.{before};
ghost use Rattle.execution.specs.Calls.{ops};
ghost use Rattle.theory.specs.Lists.{first_by};
ghost use Rattle.theory.specs.Case.{lacks, claim_b, claims_b};
ghost use Rattle.order.specs.Rows.{rows_of};
ghost use Rattle.rules.specs.Claims.{called};
ghost use Rattle.rules.specs.Scans.{Asked};

use super::claim::Claim;
use super::scan::first_pair;
use execution::Execution;
use order::{Order, has};

/// All that is after the source and not after the load, as bits.
fn after_source_only(order: &Order, source: usize, load: usize) -> u32
    requires source_in_bounds { source < 32 }
    requires load_in_bounds { load < 32 }
    ensures { (s : ℕ) → bit result s ≡ (before order.now.rows source s && not (before order.now.rows load s)) }
{
    order.row(source) & !order.row(load)
}

/// Does rule b of the load, which saw the source, put the load before the store, where the order does not say so yet?
fn lacks_b(execution: &Execution, order: &Order, load: usize, source: usize, store: usize) -> bool
    requires { Asked (ops execution.now) load source store }
    ensures { result ≡ lacks (ops execution.now) (rows_of execution.now order.now) (claim_b load store) }
{
    // By a mask, which is the same for all stores of a load, and before `touches`, which takes several look-ups: most stores have no bit in it.
    has(after_source_only(order, source, load), store) && execution.touches(store, load)
}

/// The first claim by rule b that the order lacks: by load, then by store.
pub fn first_b(execution: &Execution, order: &Order) -> Option<Claim>
    ensures { called result ≡ first_by (lacks (ops execution.now) (rows_of execution.now order.now)) (claims_b (ops execution.now)) }
{
    first_pair(execution, |load, source, store| {
        lacks_b(execution, order, load, source, store)
    })
    .map(|(load, store)| Claim::B { load, store })
}

//! Rule c: where two loads of one address saw different stores, what is before both loads is before what is after both stores.

ghost use Rattle.std.specs.Prelude.{◌≡◌, ◌<◌, true, false, length, MatchOption};
ghost use Rattle.execution.specs.Calls.{ops};
ghost use Rattle.theory.specs.Lists.{first_by};
ghost use Rattle.theory.specs.Case.{lacks, claim_c, claims_c};
ghost use Rattle.order.specs.Rows.{rows_of};
ghost use Rattle.rules.specs.Claims.{called, crossed};
ghost use Rattle.rules.specs.Scans.{LowestBelow, AfterBoth};

use super::claim::Claim;
use super::size::size;
use execution::Execution;
use order::Order;

/// All that is after both stores that the loads saw, as bits; nothing where either is no load, or the loads are not of one address or saw the same store, so that rule c does not speak of them.
fn after_sources(execution: &Execution, order: &Order, first: usize, second: usize) -> Option<u32>
    ensures { MatchOption result (crossed (ops execution.now) first second ≡ false) (λ after. (crossed (ops execution.now) first second ≡ true) × AfterBoth (ops execution.now) (rows_of execution.now order.now) first second after) }
{
    let source = execution.source(first)?;
    let other = execution.source(second)?;
    (execution.same_address(first, second) && source != other).then_some(
        order.row(source) & order.row(other),
    )
}

/// The lowest b that a is before by rule c of the loads, where the order does not say so yet; `after` is all that is after both stores that they saw.
/// A row may have bits past the operations, and a missing b there is passed over: below it none is missing.
fn missing_after(
    execution: &Execution,
    order: &Order,
    after: u32,
    first: usize,
    second: usize,
    a: usize,
) -> Option<u32>
    requires first_in_bounds { first < length (ops execution.now) }
    requires second_in_bounds { second < length (ops execution.now) }
    requires a_in_bounds { a < length (ops execution.now) }
    requires crossed { crossed (ops execution.now) first second ≡ true }
    requires after_both { AfterBoth (ops execution.now) (rows_of execution.now order.now) first second after }
    ensures { LowestBelow (length (ops execution.now)) (λ b. lacks (ops execution.now) (rows_of execution.now order.now) (claim_c first second a b)) result }
{
    let n = size(execution);
    if order.stands(n, a, first) && order.stands(n, a, second) {
        order.lacks(after, a).filter(|b| (*b as usize) < n)
    } else {
        None
    }
}

/// The first claim by rule c that the order lacks: by first load, second load, then by pair.
/// What both stores are before is one row of bits, so of each a only the lowest missing b is looked up.
pub fn first_c(execution: &Execution, order: &Order) -> Option<Claim>
    ensures { called result ≡ first_by (lacks (ops execution.now) (rows_of execution.now order.now)) (claims_c (ops execution.now)) }
{
    // Not the scan of rules a and b: it goes three numbers deep, and finds the fourth by its bit.
    let n = size(execution);
    let mut found = None;
    'scan: for first in 0..n {
        for second in 0..n {
            let Some(after) = after_sources(execution, order, first, second) else {
                continue;
            };
            for a in 0..n {
                if let Some(b) = missing_after(execution, order, after, first, second, a) {
                    found = Some(Claim::C {
                        first: first as u8,
                        second: second as u8,
                        a: a as u8,
                        b: b as u8,
                    });
                    break 'scan;
                }
            }
        }
    }
    found
}

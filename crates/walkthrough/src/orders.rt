//! What is known of the order of a record's operations, under a book.

ghost use Rattle.std.specs.Prelude.{length};
ghost use Rattle.execution.specs.Calls.{ops};
ghost use Rattle.theory.specs.Order.{Settled};
ghost use Rattle.order.specs.Rows.{rows_of};

use execution::Execution;
use opening::{open, undecided};
use order::Order;
use rulebook::{RuleBook, Sc, Weak};
use rules::{Claim, record_first};

/// Says by which rule a pair came, and which it is.
fn tell_claim(rt: &HostRuntime, execution: &Execution, claim: Claim) -> anyhow::Result<()> {
    let (a, b) = claim.pair(execution);
    match claim {
        Claim::A { load, .. } => {
            println!(rt; "  {a} before {b}, by rule a: {a} is before load {load}, which saw {b}")?
        }
        Claim::B { load, store } => {
            println!(rt;
                "  {a} before {b}, by rule b: {store} comes after the store that {load} saw"
            )?
        }
        Claim::C { first, second, .. } => {
            println!(rt;
                "  {a} before {b}, by rule c: loads {first} and {second} saw different stores"
            )?
        }
        Claim::Split { .. } | Claim::Close => {}
    }
    Ok(())
}

/// Closes a copy of the order under the rules, one pair at a time, and tells each; says whether some operation is then before itself.
fn tell_least(rt: &HostRuntime, execution: &Execution, opening: &Order) -> anyhow::Result<()>
    requires { Settled (length (ops execution.now)) (rows_of execution.now opening.now) }
{
    let mut order = *opening;
    while let Some(claim) = record_first(execution, &mut order) {
        tell_claim(rt, execution, claim)?;
    }
    if order.cyclic(execution.len()) {
        println!(rt; "  and then some operation is before itself: no memory can have done this.")?;
    } else {
        println!(rt; "  and then no operation is before itself, which alone is no verdict.")?;
    }
    Ok(())
}

/// Opens the order of the record under a book.
fn tell_under<B: RuleBook>(
    rt: &HostRuntime,
    execution: &Execution,
    name: &str,
    book: &B,
) -> anyhow::Result<()> {
    let opened = open(execution, book);
    let m = opened.opening.missing(execution.len());
    let s = undecided(execution, &opened.opening);
    println!(rt;
        "Under {name} {m} pairs are not ordered yet, and {s} pairs of stores are undecided. The rules add"
    )?;
    tell_least(rt, execution, &opened.opening)
}

/// Opens the order of the record under two books, and tells what the rules add to each.
pub(super) fn tell(rt: &HostRuntime, execution: &Execution) -> anyhow::Result<()> {
    tell_under(rt, execution, "SC", &Sc)?;
    tell_under(rt, execution, "WEAK", &Weak)
}

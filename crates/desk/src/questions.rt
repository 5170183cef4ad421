//! What is asked of a claim before it is taken. Orders are passed, so that a question names the order that it is about.

ghost use Rattle.std.specs.Prelude.{◌≡◌, true, not, map, length, nat_le};
ghost use Rattle.execution.specs.Calls.{ops};
ghost use Rattle.order.specs.Rows.{rows_of};
ghost use Rattle.rules.specs.Claims.{call_of, crossed};
ghost use Rattle.theory.specs.Lists.{any};
ghost use Rattle.theory.specs.Case.{named, premise, stands};
ghost use Rattle.desk.specs.Model.{events};
ghost use Rattle.desk.specs.Judged.{Ranged};

use super::given::Given;
use execution::Execution;
use order::Order;
use rules::Claim;

/// Are all numbers of the claim those of operations?
pub fn names(given: &Given, claim: Claim) -> bool
    ensures is { result ≡ not (any (map (λ a. nat_le (length (events given.now)) a) (named (call_of claim)))) }
    ensures ranged { result ≡ true → Ranged (length (events given.now)) claim }
{
    let n = given.execution.len() as u8;
    match claim {
        Claim::A { load, store } | Claim::B { load, store } => load < n && store < n,
        Claim::C {
            first,
            second,
            a,
            b,
        } => first < n && second < n && a < n && b < n,
        Claim::Split { s, t } => s < n && t < n,
        Claim::Close => true,
    }
}

// The finders of `rules` ask the same of the claims that they list themselves, with the sources at hand; here it is asked of any claim.
/// Are these loads of one address that saw different stores?
fn disagree(execution: &Execution, first: usize, second: usize) -> bool
    ensures { result ≡ crossed (ops execution.now) first second }
{
    match (execution.source(first), execution.source(second)) {
        (Some(one), Some(other)) => one != other && execution.same_address(first, second),
        _ => false,
    }
}

/// Do the premises of the claim hold: those of its rule, and for a split that it is between different stores to one address?
pub fn premise(given: &Given, order: &Order, claim: Claim) -> bool
    requires { Ranged (length (events given.now)) claim }
    ensures { result ≡ premise (events given.now) (rows_of given.now.execution order.now) (call_of claim) }
{
    let execution = &given.execution;
    match claim {
        Claim::A { load, store } => {
            execution.touches(usize::from(store), usize::from(load))
                && store != given.source(load)
                && given.before(order, store, load)
        }
        Claim::B { load, store } => {
            execution.touches(usize::from(store), usize::from(load))
                && given.before(order, given.source(load), store)
        }
        Claim::C {
            first,
            second,
            a,
            b,
        } => {
            disagree(execution, usize::from(first), usize::from(second))
                && given.before(order, a, first)
                && given.before(order, a, second)
                && given.before(order, given.source(first), b)
                && given.before(order, given.source(second), b)
        }
        Claim::Split { s, t } => execution.rivals(usize::from(s), usize::from(t)),
        Claim::Close => true,
    }
}

/// Does the pair of the claim stand already? For a split, either way.
pub fn stands(given: &Given, order: &Order, claim: Claim) -> bool
    requires { Ranged (length (events given.now)) claim }
    ensures { result ≡ stands (events given.now) (rows_of given.now.execution order.now) (call_of claim) }
{
    match claim {
        Claim::A { load, store } => given.before(order, store, given.source(load)),
        Claim::B { load, store } => given.before(order, load, store),
        Claim::C { a, b, .. } => given.before(order, a, b),
        Claim::Split { s, t } => given.before(order, s, t) || given.before(order, t, s),
        Claim::Close => false,
    }
}

//! Whether an order is a serialization.

ghost use Rattle.std.specs.Prelude.{◌≡◌, ℕ, ◌≤◌, ◌<◌, Bool, length, take, Decides};
ghost use Rattle.std.specs.List.{range_with_len, list_all};
ghost use Rattle.execution.specs.Calls.{ops};
ghost use Rattle.theory.specs.Order.{Says};
ghost use Rattle.theory.specs.Serial.{LawfulOrder, Opening, Serialization};
ghost use Rattle.serialization.specs.Serials.{EachOnce, kept_by, free_of};

use super::places::{count, places};
use execution::Execution;
use order::Order;

/// Does each of the first n operations stand once in the order?
fn each_once(n: usize, order: &[u8]) -> bool
    ensures { Decides result (EachOnce n order.now) }
{
    (0..n).all(|a| count(order, a) == 1)
}

/// Does a stand before all that it is recorded before?
fn keeps_after(recorded: &Order, n: usize, at: &[usize; 32], a: usize) -> bool
    requires n_fits { n ≤ 32 }
    requires a_in_bounds { a < n }
    ensures { result ≡ kept_by n (take n recorded.now.rows) at.now a }
{
    (0..n).all(|b| !recorded.stands(n, a, b) || at[a] < at[b])
}

/// Do the places keep to what is recorded of the first n operations?
fn keeps(recorded: &Order, n: usize, at: &[usize; 32]) -> bool
    requires { n ≤ 32 }
    ensures { result ≡ list_all (kept_by n (take n recorded.now.rows) at.now) (range_with_len 0 n) }
{
    (0..n).all(|a| keeps_after(recorded, n, at, a))
}

/// Does no store to this load's address stand between the load and the store that it saw?
fn sees_last(execution: &Execution, at: &[usize; 32], load: usize) -> bool
    ensures { result ≡ free_of (ops execution.now) at.now load }
{
    let Some(source) = execution.source(load) else {
        return true;
    };
    !(0..execution.len()).any(|store| {
        execution.touches(store, load) && at[source] < at[store] && at[store] < at[load]
    })
}

/// The same of any load: does no store to its address stand between it and the store that it saw?
fn none_between(execution: &Execution, at: &[usize; 32]) -> bool
    ensures { result ≡ list_all (free_of (ops execution.now) at.now) (range_with_len 0 (length (ops execution.now))) }
{
    (0..execution.len()).all(|load| sees_last(execution, at, load))
}

/// Is the order a serialization? The opening order has the local order and the sources, so an order that keeps to it keeps to both.
pub fn is_serialization(execution: &Execution, opening: &Order, order: &[u8]) -> bool
    ensures { (L : ℕ → ℕ → Bool) → LawfulOrder L (ops execution.now) → Says (ops execution.now) (take (length (ops execution.now)) opening.now.rows) (Opening L (ops execution.now)) → Decides result (Serialization L (ops execution.now) order.now) }
{
    let n = execution.len();
    if order.len() != n || !each_once(n, order) {
        return false;
    }
    let at = places(n, order);
    keeps(opening, n, &at) && none_between(execution, &at)
}

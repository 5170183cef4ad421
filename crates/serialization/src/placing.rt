//! The order that is proposed when nothing else is left: always the lowest operation that may come next.

ghost use Rattle.std.specs.Prelude.{◌≡◌, ℕ, ◌<◌, ◌≤◌, length, take, IfSome};
ghost use Rattle.std.specs.List.{range_with_len};
ghost use Rattle.execution.specs.Calls.{ops};
ghost use Rattle.theory.specs.Lists.{first_by};
ghost use Rattle.theory.specs.Case.{greedy};
ghost use Rattle.order.specs.Bits.{bit};
ghost use Rattle.room.specs.Held.{held};
ghost use Rattle.serialization.specs.Arrangements.{waits, free};

use execution::Execution;
use order::{Order, has, lowest};
use room::Room;

/// An arrangement: operation numbers, in the order in which they were placed.
pub type Arrangement = Room<u8, 32>;

/// Those that have to wait, since one of the first n that is not placed is before them.
fn held_back(order: &Order, n: usize, placed: u32) -> u32
    requires { n ≤ 32 }
    ensures { (a : ℕ) → bit result a ≡ waits order.now.rows placed n a }
{
    // One fold: a `filter` before it takes longer.
    (0..n).fold(0, |waiting, x| {
        if !has(placed, x) {
            waiting | order.row(x)
        } else {
            waiting
        }
    })
}

/// The lowest of the first n that is not placed, and before which all are placed that have to be.
fn lowest_ready(order: &Order, n: usize, placed: u32) -> Option<u8>
    requires { n ≤ 32 }
    ensures first { result ≡ first_by (free order.now.rows placed n) (range_with_len 0 n) }
    ensures within { IfSome result (λ a. a < n) }
{
    lowest(!(placed | held_back(order, n, placed)))
        .filter(|next| (*next as usize) < n)
        .map(|next| next as u8)
}

/// Places the lowest operation whose recorded predecessors are placed, again and again, until none is left that may come next.
pub fn lowest_first(execution: &Execution, order: &Order) -> Arrangement
    ensures { held result ≡ greedy (ops execution.now) (take (length (ops execution.now)) order.now.rows) }
{
    let n = execution.len();
    let mut arrangement = Room::new(0);
    let mut placed = 0;
    // Each turn places one that was not placed, and there are n of them.
    while let Some(next) = lowest_ready(order, n, placed) {
        arrangement.push(next);
        placed |= 1 << next;
    }
    arrangement
}

//! Where the operations stand in an order.

ghost use Rattle.std.specs.Prelude.{◌≡◌, ℕ, ◌<◌, ◌≤◌, slice_index};
ghost use Rattle.theory.specs.Lists.{place as place_in, count as count_in};

/// Where a first stands in an order; the order's length where it does not.
fn place(order: &[u8], a: usize) -> usize
    ensures { result ≡ place_in order.now a }
{
    order
        .iter()
        .position(|number| usize::from(*number) == a)
        // The length stands for no place, as in the definition `place`.
        .unwrap_or(order.len())
}

/// How often a stands in an order.
pub(super) fn count(order: &[u8], a: usize) -> usize
    ensures { result ≡ count_in order.now a }
{
    // Added up: `filter` and `count` took longer.
    order
        .iter()
        .map(|number| usize::from(usize::from(*number) == a))
        .sum()
}

/// The places of the first n operations, found once, since they are compared pair by pair.
pub(super) fn places(n: usize, order: &[u8]) -> [usize; 32]
    requires { n ≤ 32 }
    ensures { (k : ℕ) → k < n → slice_index result k ≡ place_in order.now k }
{
    // Of these alone, and no `from_fn`: that fills all 32, and took longer where there are fewer operations.
    let mut at = [0; 32];
    for a in 0..n {
        at[a] = place(order, a);
    }
    at
}

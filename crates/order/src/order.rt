//! Orders as rows of bits, so that what follows from a new pair is taken over a whole row at a time.

ghost use Rattle.std.specs.Prelude.{◌≡◌, ◌-◌, ◌*◌, ◌<◌, ◌≤◌, not, ◌&&◌, length, take, replicate, slice_index};
ghost use Rattle.theory.specs.Order.{before, recorded, Spread, pairs, cyclic};
ghost use Rattle.order.specs.Bits.{bit, LowestOf};

use super::bits::{has, lowest_without};

/// An order of up to 32 operations, by number: bit b of row a says that a is before b.
#[derive(Debug, Clone, Copy, PartialEq, Eq)]
pub struct Order {
    rows: [u32; 32],
    ghost full: { length rows ≡ 32 },
}

/// The order with these rows, as they are.
impl From<[u32; 32]> for Order {
    ghost from_gives = { λ rows order. order.rows ≡ rows };

    fn from(rows: [u32; 32]) -> Self {
        Order { rows }
    }
}

// Numbers of operations are plain here, with a clause that bounds each: a type of numbers below 32 would be made and taken apart at every call from above.
impl Order {
    /// Nothing is before anything.
    pub fn empty() -> Order
        ensures { result.rows ≡ replicate 32 0 }
    {
        Order { rows: [0; 32] }
    }

    /// All that a is before, as bits.
    pub fn row(&self, a: usize) -> u32
        requires { a < 32 }
        ensures { result ≡ slice_index self.now.rows a }
    {
        self.rows[a]
    }

    /// Whether a is before b.
    pub fn before(&self, a: usize, b: usize) -> bool
        requires a_in_bounds { a < 32 }
        requires b_in_bounds { b < 32 }
        ensures { result ≡ before self.now.rows a b }
    {
        has(self.rows[a], b)
    }

    /// Whether a is before b, by the first n rows alone.
    pub fn stands(&self, n: usize, a: usize, b: usize) -> bool
        requires n_fits { n ≤ 32 }
        requires a_in_bounds { a < n }
        requires b_in_bounds { b < 32 }
        ensures { result ≡ before (take n self.now.rows) a b }
    {
        has(self.rows[..n][a], b)
    }

    /// Records that a is before b. So that the order stays transitive, all up to a come before all from b on.
    pub fn record(&mut self, a: usize, b: usize)
        requires a_in_bounds { a < 32 }
        requires b_in_bounds { b < 32 }
        ensures records { self.new.rows ≡ recorded a b self.old.rows }
        ensures spreads { Spread a b self.old.rows self.new.rows }
    {
        // b's row may itself be changed below, so what is taken over is read first
        let after = self.rows[b] | (1 << b);
        for (x, row) in self.rows.iter_mut().enumerate() {
            if x == a || has(*row, a) {
                *row |= after;
            }
        }
    }

    /// How many pairs the first n rows hold.
    pub fn pairs(&self, n: usize) -> u32
        requires { n ≤ 32 }
        ensures { result ≡ pairs (take n self.now.rows) }
    {
        self.rows[..n].iter().map(|row| row.count_ones()).sum()
    }

    /// How many of the n * n pairs of the first n operations the first n rows lack, where these rows have no bit at n or above.
    /// Such a bit is counted as a pair too.
    pub fn missing(&self, n: usize) -> u32
        requires { n ≤ 32 }
        ensures { result ≡ n * n - pairs (take n self.now.rows) }
    {
        let all = (n * n) as u32;
        all.saturating_sub(self.pairs(n))
    }

    /// Whether one of the first n operations is before itself.
    pub fn cyclic(&self, n: usize) -> bool
        requires { n ≤ 32 }
        ensures { result ≡ cyclic (take n self.now.rows) }
    {
        (0..n).any(|a| self.before(a, a))
    }

    /// The lowest number in `after` that a is not before.
    pub fn lacks(&self, after: u32, a: usize) -> Option<u32>
        requires { a < 32 }
        ensures { LowestOf (λ b. bit after b && not (before self.now.rows a b)) result }
    {
        lowest_without(after, self.rows[a])
    }
}

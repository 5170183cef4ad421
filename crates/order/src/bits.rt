//! Sets of the numbers below 32, as bits.

ghost use Rattle.std.specs.Prelude.{◌≡◌, ◌<◌, not, ◌&&◌};
ghost use Rattle.order.specs.Bits.{bit, Lowest, LowestOf};

/// Whether bit b is set.
pub fn has(row: u32, b: usize) -> bool
    requires { b < 32 }
    ensures { result ≡ bit row b }
{
    (row >> b) % 2 == 1
}

/// The lowest bit that is set.
pub fn lowest(row: u32) -> Option<u32>
    ensures { Lowest row result }
{
    (row != 0).then(|| row.trailing_zeros())
}

/// The lowest bit that is set in the one row and not in the other.
pub(super) fn lowest_without(row: u32, other: u32) -> Option<u32>
    ensures { LowestOf (λ b. bit row b && not (bit other b)) result }
{
    lowest(row & !other)
}

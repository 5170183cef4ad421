//! The operations that a question names.

ghost use Rattle.std.specs.Prelude.{◌≡◌, not, [], ◌∷◌, map, length, nat_le};
ghost use Rattle.execution.specs.Calls.{ops};
ghost use Rattle.theory.specs.Lists.{any};

use execution::Execution;

/// Are both numbers those of operations?
// Of two numbers. A claim has its own in its fields, and an order has a list of them: no one form is plainer for all three.
pub(super) fn names_both(execution: &Execution, a: u8, b: u8) -> bool
    ensures { result ≡ not (any (map (λ x. nat_le (length (ops execution.now)) x) (a ∷ b ∷ []))) }
{
    let n = execution.len();
    usize::from(a) < n && usize::from(b) < n
}

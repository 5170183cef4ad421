//! The claim that the house makes next.

ghost use Rattle.std.specs.Prelude.{◌≡◌};
ghost use Rattle.house.specs.Turns.{Next};

use desk::{Desk, Given, State};
use rules::{Claim, first_missing, first_split};

/// The first claim that is not refused: a close, where there is a cycle, then a claim by rule a, by b, by c, then a split.
/// A split comes last, since what a rule asks for needs no trial.
pub(super) fn next_claim(given: &Given, desk: &Desk) -> Option<Claim>
    requires { desk.now.state ≡ State.Open }
    ensures { Next given.now desk.now result }
{
    let execution = &given.execution;
    if desk.order.cyclic(execution.len()) {
        return Some(Claim::Close);
    }
    first_missing(execution, &desk.order).or_else(|| first_split(execution, &desk.order))
}

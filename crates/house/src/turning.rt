//! One turn of the house.

ghost use Rattle.std.specs.Prelude.{◌≡◌};
ghost use Rattle.house.specs.Turns.{Come, Turned};

use super::next::next_claim;
use super::orders::propose;
use desk::{Desk, Given, State};
use serialization::lowest_first;

/// One turn of the house: its next claim. Where no claim is left there is no cycle and nothing to decide,
/// so the order that always places the lowest operation whose recorded predecessors are placed is a serialization, and it proposes that.
pub fn turn(given: &Given, desk: &mut Desk)
    requires open { desk.old.state ≡ State.Open }
    requires come { Come given.now desk.old }
    ensures { Turned given.now desk.old desk.new }
{
    match next_claim(given, desk) {
        Some(claim) => desk.claim(given, claim).unwrap(),
        None => {
            let lowest = lowest_first(&given.execution, &desk.order);
            propose(given, desk, lowest.held()).unwrap();
        }
    }
}

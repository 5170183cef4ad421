//! The turns of the house, as many as it is given.

ghost use Rattle.std.specs.Prelude.{◌≡◌, ℕ, Ok, Err};
ghost use Rattle.theory.specs.Case.{house, Hears};
ghost use Rattle.desk.specs.Model.{events, locally, model};
ghost use Rattle.house.specs.Turns.{Come, house_answer};

use super::turning::turn;
use desk::{Desk, Given, State};
use field::Refusal;

/// Lets the house take its turns: exactly as many as its budget, or fewer when the case ends.
/// It tells how many it took, and the state after them. A case that has ended is refused, and is left as it was.
pub fn house(given: &Given, desk: &mut Desk, budget: u16) -> Result<(u16, State), Refusal>
    requires { Come given.now desk.old }
    ensures heard { Hears (locally given.now) (events given.now) (model given.now desk.old) (house budget) (house_answer result) (model given.now desk.new) }
    ensures told { (t : ℕ) (s : State) → result ≡ Ok (t, s) → s ≡ desk.new.state }
    ensures kept { (e : Refusal) → result ≡ Err e → desk.new ≡ desk.old }
{
    if desk.state != State::Open {
        return Err(Refusal::CaseEnded);
    }
    for made in 0..budget {
        if desk.state != State::Open {
            return Ok((made, desk.state));
        }
        turn(given, desk);
    }
    Ok((budget, desk.state))
}

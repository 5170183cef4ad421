//! The house's turns on a case.

ghost use Rattle.std.specs.Prelude.{◌≡◌, ℕ, Ok, Err};
ghost use Rattle.theory.specs.Case.{house as house_call};
ghost use Rattle.house.specs.Turns.{house_answer};
ghost use Rattle.caseroom.specs.Replied.{HeardBy};

use super::case::Case;
use desk::State;
use field::Refusal;
use house::house;

impl Case {
    /// Lets the house take up to so many turns; it takes fewer only where the case ends. Says how many it took, and the state after them.
    pub fn house(&mut self, budget: u16) -> Result<(u16, State), Refusal>
        ensures heard { HeardBy self.old.given self.old.desk (house_call budget) (house_answer result) self.new.desk }
        ensures told { (t : ℕ) (s : State) → result ≡ Ok (t, s) → s ≡ self.new.desk.state }
        ensures same { self.new.given ≡ self.old.given }
        ensures unmoved { (e : Refusal) → result ≡ Err e → self.new ≡ self.old }
    {
        house(&self.given, &mut self.desk, budget)
    }
}

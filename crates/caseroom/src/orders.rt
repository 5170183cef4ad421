//! Orders proposed to a case.

ghost use Rattle.std.specs.Prelude.{◌≡◌, Err};
ghost use Rattle.theory.specs.Case.{propose as propose_call};
ghost use Rattle.desk.specs.Judged.{answer_of};
ghost use Rattle.caseroom.specs.Replied.{Replied};

use super::case::Case;
use field::Refusal;
use house::propose;

impl Case {
    /// Takes an order as a serialization, which ends the case, or turns it away; a refused order leaves all as it was.
    pub fn order(&mut self, order: &[u8]) -> Result<(), Refusal>
        ensures replies { Replied self.old.given self.old.desk (propose_call order.now) (answer_of result) self.new.desk }
        ensures same { self.new.given ≡ self.old.given }
        ensures unmoved { (e : Refusal) → result ≡ Err e → self.new ≡ self.old }
    {
        propose(&self.given, &mut self.desk, order)
    }
}

//! Claims on a case.

ghost use Rattle.std.specs.Prelude.{◌≡◌, Err};
ghost use Rattle.rules.specs.Claims.{call_of};
ghost use Rattle.desk.specs.Judged.{answer_of};
ghost use Rattle.caseroom.specs.Replied.{Replied};

use super::case::Case;
use field::Refusal;
use rules::Claim;

impl Case {
    /// Takes a claim or turns it away. Of all reasons to turn it away the one with the smallest number is told, and a refused claim leaves all as it was.
    pub fn claim(&mut self, claim: Claim) -> Result<(), Refusal>
        ensures replies { Replied self.old.given self.old.desk (call_of claim) (answer_of result) self.new.desk }
        ensures same { self.new.given ≡ self.old.given }
        ensures unmoved { (e : Refusal) → result ≡ Err e → self.new ≡ self.old }
    {
        self.desk.claim(&self.given, claim)
    }
}

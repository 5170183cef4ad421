//! The question about the least order.

ghost use Rattle.theory.specs.Case.{least};
ghost use Rattle.caseroom.specs.Replied.{Replied, says_of};

use super::case::Case;
use super::names::names_both;
use field::Refusal;
use rules::least_order;

impl Case {
    /// Is a before b in the least order: by the rules alone, with nothing tried? What was claimed plays no part in it, so an ended case answers too.
    pub fn least(&self, a: u8, b: u8) -> Result<bool, Refusal>
        ensures { Replied self.now.given self.now.desk (least a b) (says_of result) self.now.desk }
    {
        let execution = &self.given.execution;
        if !names_both(execution, a, b) {
            return Err(Refusal::NoSuchOperation);
        }
        let least = least_order(execution, &self.given.opening);
        Ok(least.stands(execution.len(), usize::from(a), usize::from(b)))
    }
}

//! How a case begins.

ghost use Rattle.std.specs.Prelude.{◌≡◌, ℕ};
ghost use Rattle.execution.specs.Calls.{ops};
ghost use Rattle.theory.specs.Order.{Says};
ghost use Rattle.theory.specs.Serial.{local as local_by, Opening};
ghost use Rattle.theory.specs.Case.{opened};
ghost use Rattle.desk.specs.Model.{events, locally, at_first, model};

use super::case::Case;
use desk::{Desk, Given};
use execution::Execution;
use opening::open;
use rulebook::RuleBook;

impl Case {
    /// Opens a case on an execution, which it uses up. Any execution will do, under any book, so this is never refused.
    pub fn open<B: RuleBook>(execution: Execution, book: &B) -> Case
        ensures execution { events result.given ≡ ops execution }
        ensures local { (a b : ℕ) → locally result.given a b ≡ local_by (B.RuleBook.keeps book.now) (ops execution) a b }
        ensures says { Says (ops execution) (at_first result.given) (Opening (local_by (B.RuleBook.keeps book.now) (ops execution)) (ops execution)) }
        ensures opened { model result.given result.desk ≡ opened (at_first result.given) }
    {
        let orders = open(&execution, book);
        let given = Given::new(execution, orders.local, orders.opening);
        let desk = Desk::new(&given.opening);
        Case { given, desk }
    }
}

//! Both orders of a new case, from its execution and its rule book.

ghost use Rattle.std.specs.Prelude.{◌≡◌, ℕ, length};
ghost use Rattle.execution.specs.Calls.{ops};
ghost use Rattle.theory.specs.Order.{before, Settled, Says};
ghost use Rattle.theory.specs.Serial.{local as local_by, LawfulOrder, Opening};
ghost use Rattle.order.specs.Rows.{rows_of};

use super::direct::opening_order;
use super::local::local_order;
use execution::Execution;
use order::Order;
use rulebook::RuleBook;

/// The local order of an execution under a rule book, and the opening order over it.
#[derive(Debug, Clone, Copy, PartialEq, Eq)]
pub struct Opened {
    pub local: Order,
    pub opening: Order,
}

/// The orders with which a case over this execution begins under this book.
pub fn open<B: RuleBook>(execution: &Execution, book: &B) -> Opened
    ensures kept { (a b : ℕ) → before (rows_of execution.now result.local) a b ≡ local_by (B.RuleBook.keeps book.now) (ops execution.now) a b }
    ensures lawful { LawfulOrder (before (rows_of execution.now result.local)) (ops execution.now) }
    ensures says { Says (ops execution.now) (rows_of execution.now result.opening) (Opening (local_by (B.RuleBook.keeps book.now) (ops execution.now)) (ops execution.now)) }
    ensures settled { Settled (length (ops execution.now)) (rows_of execution.now result.opening) }
{
    let local = local_order(execution, book);
    let opening = opening_order(execution, &local);
    Opened { local, opening }
}

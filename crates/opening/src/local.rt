//! The local order: what each thread keeps by its rule book, after the initial stores.

ghost use Rattle.std.specs.Prelude.{◌≡◌, ℕ, length};
ghost use Rattle.execution.specs.Calls.{ops};
ghost use Rattle.order.specs.Bits.{bit};
ghost use Rattle.theory.specs.Order.{before};
ghost use Rattle.theory.specs.Serial.{local as local_by, LawfulOrder};
ghost use Rattle.order.specs.Rows.{rows_of};
ghost use Rattle.opening.specs.Orders.{Within};

use execution::Execution;
use order::Order;
use rulebook::{RuleBook, Seen};

// The book is lent beside the execution, here and wherever a case is opened: it is asked, and nothing keeps both.
/// Is a before b in the local order? The book is asked only about two operations of one thread that runs, the first above the second.
fn is_local<B: RuleBook>(execution: &Execution, book: &B, a: usize, b: usize) -> bool
    ensures { result ≡ local_by (B.RuleBook.keeps book.now) (ops execution.now) a b }
{
    let (Some(first), Some(second)) = (execution.operation(a), execution.operation(b)) else {
        return false;
    };
    if first.thread == 0 {
        // Initial stores come before all that runs, and have no order among themselves.
        return second.thread != 0;
    }
    first.thread == second.thread
        && a < b
        && book.kept(Seen::of(a as u8, first), Seen::of(b as u8, second))
}

/// All that a is before in the local order, as bits.
fn local_row<B: RuleBook>(execution: &Execution, book: &B, a: usize) -> u32
    ensures { bit result ≡ local_by (B.RuleBook.keeps book.now) (ops execution.now) a }
{
    // One fold: a `filter` before it takes longer.
    (0..execution.len()).fold(0, |row, b| {
        if is_local(execution, book, a, b) {
            row | 1 << b
        } else {
            row
        }
    })
}

/// The local order of a book. It is kept pair by pair as the book answered, so it need not be transitive.
pub fn local_order<B: RuleBook>(execution: &Execution, book: &B) -> Order
    ensures kept { (a b : ℕ) → before (rows_of execution.now result) a b ≡ local_by (B.RuleBook.keeps book.now) (ops execution.now) a b }
    ensures whole { (a b : ℕ) → before result.rows a b ≡ local_by (B.RuleBook.keeps book.now) (ops execution.now) a b }
    ensures within { Within (length (ops execution.now)) (rows_of execution.now result) }
    ensures lawful { LawfulOrder (before (rows_of execution.now result)) (ops execution.now) }
{
    // A row for each operation, and no `from_fn`: that makes all 32, and took longer where there are fewer operations.
    let mut rows = [0; 32];
    for a in 0..execution.len() {
        rows[a] = local_row(execution, book, a);
    }
    Order::from(rows)
}

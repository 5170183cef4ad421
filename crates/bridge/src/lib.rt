//! The judge for other languages: a handful of functions on bytes and numbers.
#![tactic(auto)]

ghost use Rattle.std.specs.Prelude.{length, IfSome, MatchOption};
ghost use Rattle.execution.specs.Calls.{ops};
ghost use Rattle.theory.specs.Order.{Settled};
ghost use Rattle.theory.specs.Serial.{Opening, Least};
ghost use Rattle.order.specs.Rows.{rows_of};
ghost use Rattle.bridge.specs.Counts.{PairsOf, Started, NotStarted};

use execution::Execution;
use opening::open;
use order::Order;
use rulebook::Book;
use rules::least_order;

/// An execution and its opening order.
#[derive(Drop)]
struct Start {
    execution: Execution,
    opening: Order,
}

/// The execution of a record, and its opening order under the book with this code.
fn begin(bytes: &[u8], code: u8) -> Option<Start>
    ensures started { MatchOption result (NotStarted bytes.now code) (λ p. Started bytes.now code p.execution p.opening) }
    ensures settled { IfSome result (λ p. Settled (length (ops p.execution)) (rows_of p.execution p.opening)) }
{
    let book = Book::try_from(code).ok()?;
    let mut execution = Execution::new();
    execution.read(bytes).ok()?;
    let opening = open(&execution, &book).opening;
    Some(Start { execution, opening })
}

// The numbers of the two functions below are C's interface: one that no count reaches stands for a refusal.

/// How many pairs the opening order of a record has under the book with this code; `u32::MAX` where one of them is refused.
#[unsafe(no_mangle)]
pub extern "C" fn judge_opening_pairs(bytes: &[u8], code: u8) -> u32
    ensures { PairsOf Opening bytes.now code result }
{
    begin(bytes, code).map_or(u32::MAX, |start| {
        start.opening.pairs(start.execution.len())
    })
}

/// How many pairs the least order of a record has under the book with this code; `u32::MAX` where one of them is refused.
#[unsafe(no_mangle)]
pub extern "C" fn judge_least_pairs(bytes: &[u8], code: u8) -> u32
    ensures { PairsOf Least bytes.now code result }
{
    // a `match`: in a closure the least order would have no name for the contract to speak of
    match begin(bytes, code) {
        Some(start) => least_order(&start.execution, &start.opening).pairs(start.execution.len()),
        None => u32::MAX,
    }
}

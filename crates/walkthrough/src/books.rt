//! Which orders of the record each rule book keeps.

use execution::Execution;
use rulebook::{Book, Dependence, RuleBook, Sc, Seen, Weak};
use std::alloc::{AllocError, Global};

/// The pairs that a book is asked about: both operations stand in one thread from 1 to 8.
fn asked(heap: Global, execution: &Execution) -> Result<Vec<(Seen, Seen)>, AllocError> {
    let mut pairs = Vec::new(heap);
    for a in 0..32u8 {
        for b in a + 1..32 {
            if let Some(first) = execution.operation(usize::from(a))
                && let Some(second) = execution.operation(usize::from(b))
                && first.thread > 0
                && first.thread == second.thread
            {
                pairs.push((Seen::of(a, first), Seen::of(b, second)))?;
            }
        }
    }
    Ok(pairs)
}

/// Prints the pairs that each book keeps, and how many it lets pass.
pub(super) fn compare(rt: &HostRuntime, execution: &Execution) -> anyhow::Result<()> {
    let pairs = asked(rt.alloc(), execution)?;
    for (name, book) in [
        ("SC, which keeps every pair,", Book::Sc(Sc)),
        ("WEAK", Book::Weak(Weak)),
        (
            "WEAK with dependences",
            Book::WeakWithDependence(Dependence(Weak)),
        ),
    ] {
        println!(rt; "{name} keeps")?;
        let (kept, passed): (Vec<_>, Vec<_>) = pairs
            .iter()
            .partition(rt.alloc(), |(first, second)| book.kept(*first, *second))?;
        for (first, second) in kept {
            println!(rt; "  {} before {}", first.number, second.number)?;
        }
        println!(rt; "  and lets {} pass.", passed.len())?;
    }
    Ok(())
}

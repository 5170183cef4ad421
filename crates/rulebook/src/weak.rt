//! A weak book: it keeps what fences and branches ask for, and what the law asks of every book.

ghost use Rattle.rulebook.specs.Books.{weak};
ghost use Rattle.std.proofs.Common.{rules};

use super::rule_book::RuleBook;
use super::seen::{Access, Seen};

/// The book that keeps loads and stores on their side of a fence, keeps branches and stores below an earlier branch,
/// and beyond that only what the law keeps: two loads may pass each other even on one address.
#[derive(Debug, Clone, Copy, PartialEq, Eq)]
pub struct Weak;

impl RuleBook for Weak {
    ghost keeps = { λ _. weak };

    ghost lawful = { Prim.search rules };

    fn kept(&self, first: Seen, second: Seen) -> bool {
        match (first.access, second.access) {
            (Access::Load(_) | Access::Store(_), Access::Fence) => true,
            (Access::Fence, Access::Load(_) | Access::Store(_)) => true,
            (Access::Branch, Access::Branch | Access::Store(_)) => true,
            _ => first.access.conflicts_with(second.access),
        }
    }
}

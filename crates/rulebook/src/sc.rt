//! Sequential consistency: a thread's operations keep the order of the program.

ghost use Rattle.rulebook.specs.Books.{sc};
ghost use Rattle.std.proofs.Common.{rules};

use super::rule_book::RuleBook;
use super::seen::Seen;

/// The book that keeps every pair.
#[derive(Debug, Clone, Copy, PartialEq, Eq)]
pub struct Sc;

impl RuleBook for Sc {
    ghost keeps = { λ _. sc };

    ghost lawful = { Prim.search rules };

    fn kept(&self, _first: Seen, _second: Seen) -> bool {
        true
    }
}

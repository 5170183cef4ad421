//! A layer over any rule book, for programs whose operations need the results of earlier ones.

ghost use Rattle.rulebook.specs.Books.{dependent};
ghost use Rattle.std.proofs.Common.{rules};

use super::rule_book::RuleBook;
use super::seen::Seen;

/// The book that keeps what the book below it keeps, and also a pair whose second depends on its first.
#[derive(Debug, Clone, Copy, PartialEq, Eq)]
pub struct Dependence<B>(pub B);

impl<B: RuleBook> RuleBook for Dependence<B> {
    ghost keeps = { λ d. dependent (B.RuleBook.keeps d.0) };

    ghost lawful = { Prim.search rules };

    fn kept(&self, first: Seen, second: Seen) -> bool {
        self.0.kept(first, second) || second.depends_on(first)
    }
}

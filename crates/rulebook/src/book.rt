//! Any of the rule books, for programs that choose one as they run.

ghost use Rattle.std.specs.Prelude.{◌≡◌};
ghost use Rattle.rulebook.specs.Codes.{book_keeps, book_by_code};
ghost use Rattle.std.proofs.Common.{rules};

use super::dependence::Dependence;
use super::rule_book::RuleBook;
use super::sc::Sc;
use super::seen::Seen;
use super::table::Table;
use super::weak::Weak;
use field::Refusal;

/// A rule book of some kind; it keeps what the book that it holds keeps.
// An enum, so that a book is a plain value and nothing is allocated for it.
#[derive(Debug, Clone, Copy, PartialEq, Eq)]
pub enum Book {
    Sc(Sc),
    Weak(Weak),
    WeakWithDependence(Dependence<Weak>),
    Written(Table),
}

/// The book with this code: 1, 2 or 3. A written table has none, since its entries have to be read.
impl TryFrom<u8> for Book {
    type Error = Refusal;

    ghost try_from_gives = { λ code r. r ≡ book_by_code code };

    fn try_from(code: u8) -> Result<Self, Refusal> {
        match code {
            1 => Ok(Book::Sc(Sc)),
            2 => Ok(Book::Weak(Weak)),
            3 => Ok(Book::WeakWithDependence(Dependence(Weak))),
            _ => Err(Refusal::UnknownCode),
        }
    }
}

impl RuleBook for Book {
    ghost keeps = { book_keeps };

    ghost lawful = { Prim.search rules };

    fn kept(&self, first: Seen, second: Seen) -> bool {
        match self {
            Book::Sc(book) => book.kept(first, second),
            Book::Weak(book) => book.kept(first, second),
            Book::WeakWithDependence(book) => book.kept(first, second),
            Book::Written(table) => table.kept(first, second),
        }
    }
}

//! What a rule book is.

ghost use Rattle.std.specs.Prelude.{◌≡◌, Bool};
ghost use Rattle.rulebook.specs.Books.{Law};
ghost use Rattle.rulebook.specs.declared.seen.Seen.{Seen};

use super::seen::Seen;

/// Which pairs of operations of one thread keep their order, the first above the second in the program.
/// A book is a fixed relation, its meaning: asking changes nothing and is never refused.
pub trait RuleBook {
    /// The pairs that the book keeps.
    ghost keeps: { Self → Seen → Seen → Bool };

    /// Does the first stay before the second?
    fn kept(&self, first: Seen, second: Seen) -> bool
        ensures { result ≡ keeps self.now first second };

    /// Two operations on one address, at least one a store, keep their order by every book.
    ghost lawful: { (b : Self) → Law (keeps b) };
}

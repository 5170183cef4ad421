//! A rule book that is written down, as a table of kinds.

ghost use Rattle.std.specs.Prelude.{◌≡◌, true, false, replicate, MatchResult};
ghost use Rattle.field.specs.declared.refusal.Refusal.TheVariants.{LawlessTable};
ghost use Rattle.rulebook.specs.declared.seen.Seen.{Seen};
ghost use Rattle.rulebook.specs.declared.entry.Entry.TheVariants.{Kept};
ghost use Rattle.rulebook.specs.Books.{sc};
ghost use Rattle.rulebook.specs.Tables.{obeys, written};
ghost use Rattle.std.proofs.Common.{rules};

use super::entry::Entry;
use super::rule_book::RuleBook;
use super::seen::Seen;
use field::Refusal;

/// A book with an entry for each pair of kinds: the first operation's kind has the row, the second's the column,
/// both in the order load, store, fence, branch.
/// No table lets pass what the law keeps, so the entries for load and store, store and load, and two stores are never `MayPass`.
#[derive(Debug, Clone, Copy, PartialEq, Eq)]
pub struct Table {
    pub(super) entries: [Entry; 16],
    ghost lawful: { obeys entries ≡ true },
}

impl Table {
    /// The table that keeps every pair.
    pub fn new() -> Table
        ensures entries { result.entries ≡ replicate 16 Kept }
        ensures every { (x y : Seen) → written result.entries x y ≡ sc x y }
    {
        Table {
            entries: [Entry::Kept; 16],
        }
    }
}

/// The table with these entries, if they obey the law.
impl TryFrom<[Entry; 16]> for Table {
    type Error = Refusal;

    ghost try_from_gives = { λ entries r. MatchResult r (λ t. (obeys entries ≡ true) × (t.entries ≡ entries)) (λ e. (obeys entries ≡ false) × (e ≡ LawlessTable)) };

    fn try_from(entries: [Entry; 16]) -> Result<Self, Refusal> {
        // Load and store, store and load, two stores.
        if entries[1].may_pass() || entries[4].may_pass() || entries[5].may_pass() {
            return Err(Refusal::LawlessTable);
        }
        Ok(Table { entries })
    }
}

impl RuleBook for Table {
    ghost keeps = { λ t. written t.entries };

    ghost lawful = { Prim.search rules };

    fn kept(&self, first: Seen, second: Seen) -> bool {
        let entry = self.entries[first.access.place(second.access)];
        entry.keeps(first.access, second.access)
    }
}

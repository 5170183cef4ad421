//! What a rule book is shown of an operation.

ghost use Rattle.std.specs.Prelude.{◌≡◌, ◌<◌};
ghost use Rattle.rulebook.specs.Books.{access_of, seen_of, conflict, depends_on};
ghost use Rattle.rulebook.specs.Places.{touched, shares_address, row, place};

use execution::{Action, Operation, shared};

/// What an operation does, as far as a rule book may know: its kind, and its address if it has one.
// Not `Action` with another type for its source: every book would then match on a source that is not there.
#[derive(Debug, Clone, Copy, PartialEq, Eq)]
pub enum Access {
    Load(u16),
    Store(u16),
    Fence,
    Branch,
}

/// The access of an action; which store a load saw is left out.
impl From<Action> for Access {
    ghost from_gives = { λ a r. r ≡ access_of a };

    fn from(action: Action) -> Self {
        match action {
            Action::Load { address, source: _ } => Access::Load(address),
            Action::Store { address } => Access::Store(address),
            Action::Fence => Access::Fence,
            Action::Branch => Access::Branch,
        }
    }
}

impl Access {
    /// The address that is touched, if any.
    fn address(self) -> Option<u16>
        ensures { result ≡ touched self }
    {
        match self {
            Access::Load(address) | Access::Store(address) => Some(address),
            Access::Fence | Access::Branch => None,
        }
    }

    /// Do both touch one address? What has no address shares none.
    pub(super) fn shares_address(self, other: Access) -> bool
        ensures { result ≡ shares_address self other }
    {
        shared(self.address(), other.address())
    }

    /// Do both touch one address, at least one of them as a store?
    pub(super) fn conflicts_with(self, other: Access) -> bool
        ensures { result ≡ conflict self other }
    {
        match (self, other) {
            (Access::Load(_), Access::Load(_)) => false,
            _ => self.shares_address(other),
        }
    }

    /// The row of the kind in a written table, which is its column too.
    // Told by cases, since the place in a written table is a number and the kinds have none of their own.
    fn row(self) -> usize
        ensures row { result ≡ row self }
        ensures below { result < 4 }
    {
        match self {
            Access::Load(_) => 0,
            Access::Store(_) => 1,
            Access::Fence => 2,
            Access::Branch => 3,
        }
    }

    /// Where a written table has its entry for a pair, of which this is the first.
    pub(super) fn place(self, second: Access) -> usize
        ensures place { result ≡ place self second }
        ensures below { result < 16 }
    {
        4 * self.row() + second.row()
    }
}

/// An operation as a rule book sees it: its number, what it does and what it depends on; not its thread, not its source.
#[derive(Debug, Clone, Copy, PartialEq, Eq)]
pub struct Seen {
    pub number: u8,
    pub access: Access,
    pub dependence: Option<u8>,
}

impl Seen {
    /// What a rule book sees of the operation with this number.
    // Not a `From`, since the number stands beside the operation and not in it.
    pub fn of(number: u8, operation: Operation) -> Seen
        ensures { result ≡ seen_of number operation }
    {
        Seen {
            number,
            access: operation.action.into(),
            dependence: operation.dependence,
        }
    }

    /// Does this operation need the other one?
    pub(super) fn depends_on(self, other: Seen) -> bool
        ensures { result ≡ depends_on self other }
    {
        self.dependence == Some(other.number)
    }
}

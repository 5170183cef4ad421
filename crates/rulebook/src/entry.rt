//! The entries of a written table.

ghost use Rattle.std.specs.Prelude.{◌≡◌};
ghost use Rattle.rulebook.specs.Places.{shares_address};
ghost use Rattle.rulebook.specs.Tables.{entry_by_code, entry_keeps, may_pass};

use super::seen::Access;
use field::Refusal;

/// What a written table says of a pair of kinds.
#[derive(Debug, Clone, Copy, PartialEq, Eq)]
pub enum Entry {
    /// The second may pass the first.
    MayPass = 0,
    /// The pair keeps its order.
    Kept = 1,
    /// The pair keeps its order where both touch one address.
    KeptOnAddress = 2,
}

/// The entry with this code.
impl TryFrom<u8> for Entry {
    type Error = Refusal;

    ghost try_from_gives = { λ code r. r ≡ entry_by_code code };

    fn try_from(code: u8) -> Result<Self, Refusal> {
        match code {
            0 => Ok(Entry::MayPass),
            1 => Ok(Entry::Kept),
            2 => Ok(Entry::KeptOnAddress),
            _ => Err(Refusal::UnknownCode),
        }
    }
}

impl Entry {
    /// Does a pair with this entry keep its order?
    pub(super) fn keeps(self, first: Access, second: Access) -> bool
        ensures { result ≡ entry_keeps self (shares_address first second) }
    {
        match self {
            Entry::MayPass => false,
            Entry::Kept => true,
            Entry::KeptOnAddress => first.shares_address(second),
        }
    }

    /// Does it let pass every pair? The law has places where no such entry may stand.
    pub(super) fn may_pass(self) -> bool
        ensures { result ≡ may_pass self }
    {
        self == Entry::MayPass
    }
}

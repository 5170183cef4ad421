//! How much a case had to decide when it opened. With m missing pairs and s undecided ones it admits at most (m + 1) * 2 ^ s claims and orders.

ghost use Rattle.std.specs.Prelude.{◌≡◌};
ghost use Rattle.theory.specs.Order.{missing as missing_in, undecided as undecided_in};
ghost use Rattle.desk.specs.Model.{events, at_first};

use super::case::Case;
use opening::undecided;

impl Case {
    /// How many pairs of operations the opening order lacks, m.
    #[tactic(auto, unfolding(theory::specs::Order::missing))]
    pub fn missing(&self) -> u32
        ensures { result ≡ missing_in (events self.now.given) (at_first self.now.given) }
    {
        self.given.opening.missing(self.given.execution.len())
    }

    /// How many pairs of stores it leaves undecided, s.
    pub fn undecided(&self) -> u32
        ensures { result ≡ undecided_in (events self.now.given) (at_first self.now.given) }
    {
        undecided(&self.given.execution, &self.given.opening)
    }
}

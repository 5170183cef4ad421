//! What a case is.

ghost use Rattle.house.specs.Turns.{Come};

use desk::{Desk, Given};

// Each call says by clauses that what was given stays, and that a refusal leaves all as it was: facts of before and after, which no invariant can say.
/// A case: what it was opened with, and what has changed since. It was reached from its opening by calls, whichever they were,
/// so all that the theory says of such cases is true of it. It is not copied: two cases that went on from one would be two verdicts on one execution.
#[derive(Drop)]
pub struct Case {
    pub(super) given: Given,
    pub(super) desk: Desk,
    ghost reached: { Come given desk },
}

//! What an admitted claim records.

ghost use Rattle.std.specs.Prelude.{◌≡◌};
ghost use Rattle.execution.specs.Calls.{ops};
ghost use Rattle.theory.specs.Case.{pair};
ghost use Rattle.rules.specs.Claims.{call_of};

use super::claim::Claim;
use execution::Execution;

impl Claim {
    /// The pair that the claim puts in order. A close records nothing, and has 0 twice; what is no load counts as having seen 0.
    pub fn pair(self, execution: &Execution) -> (usize, usize)
        ensures { result ≡ pair (ops execution.now) (call_of self) }
    {
        match self {
            Claim::A { load, store } => (store.into(), execution.source(load.into()).unwrap_or(0)),
            Claim::B { load, store } => (load.into(), store.into()),
            Claim::C { a, b, .. } => (a.into(), b.into()),
            Claim::Split { s, t } => (s.into(), t.into()),
            Claim::Close => (0, 0),
        }
    }
}

//! The scan that rules a and b share: over loads, and for each load over all operations. Which of them are stores that the rule speaks of, the test decides.

ghost use Rattle.std.specs.Prelude.{ℕ};
ghost use Rattle.execution.specs.Calls.{ops};
ghost use Rattle.rules.specs.Scans.{Asked, FirstPair};

use super::size::size;
use execution::Execution;

/// The first load and operation that pass the test: by load, then by operation. The test is told the load, the store that it saw, and the operation.
pub(super) fn first_pair<F: Fn(usize, usize, usize) -> bool>(
    execution: &Execution,
    test: F,
) -> Option<(u8, u8)>
    requires { (load source other : ℕ) → Asked (ops execution.now) load source other → F.pre test load source other }
    ensures { FirstPair (ops execution.now) (F.post test) result }
{
    let n = size(execution);
    // A scan that is left by its label at the first that is found, as all finders here are: the project asks for that form.
    let mut found = None;
    'scan: for load in 0..n {
        let Some(source) = execution.source(load) else {
            continue;
        };
        for other in 0..n {
            if test(load, source, other) {
                found = Some((load as u8, other as u8));
                break 'scan;
            }
        }
    }
    found
}

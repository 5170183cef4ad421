//! What was recorded of a program's run.

ghost use Rattle.std.specs.Prelude.{T};
ghost use Rattle.room.specs.Held.{held};
ghost use Rattle.execution.specs.Formed.{formed?};

use super::operation::Operation;
use room::Room;

/// An execution: at most 32 operations that keep every rule of `formed?`. No public way makes one that breaks them.
/// It is moved and not copied, so that what was opened on one cannot be read over.
#[derive(Drop)]
pub struct Execution {
    pub(super) listing: Room<Operation, 32>,
    ghost formed: { T (formed? (held listing)) },
}

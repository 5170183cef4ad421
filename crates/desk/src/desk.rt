//! What changes in a case.

ghost use Rattle.std.specs.Prelude.{◌≡◌, length};

use super::choice::Choice;
use super::state::State;
use order::Order;
use room::Room;

/// What changes in a case: the recorded order, the choices that stand, the state, and the order that was admitted, if one was.
/// The choices that stand are held latest last. No pair of operations is chosen twice, and 32 of them make 496 pairs, so there is room for all.
#[derive(Drop)]
pub struct Desk {
    pub order: Order,
    pub(super) choices: Room<Choice, 496>,
    pub state: State,
    // What it holds counts only where the state is `Serial`. It stands beside `State`, which the house's answers carry, and not inside it.
    pub admitted: [u8; 32],
    ghost space: { length admitted ≡ 32 },
}

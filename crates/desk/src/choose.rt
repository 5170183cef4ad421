//! Choosing a way where no rule decides.

ghost use Rattle.std.specs.Prelude.{◌≡◌, ◌<◌, length};
ghost use Rattle.theory.specs.Case.{split, after};
ghost use Rattle.room.specs.Held.{held};
ghost use Rattle.desk.specs.Model.{events, model};

use super::choice::{Choice, Side};
use super::desk::Desk;
use super::given::Given;
use super::state::State;

impl Desk {
    /// Tries `one` before `other`, and keeps the order as it stands for the other way.
    pub(super) fn choose(&mut self, given: &Given, one: u8, other: u8)
        requires room { length (held self.old.choices) < 496 }
        requires one_in_bounds { one < length (events given.now) }
        requires other_in_bounds { other < length (events given.now) }
        requires still_open { self.old.state ≡ State.Open }
        ensures { model given.now self.new ≡ after (events given.now) (model given.now self.old) (split one other) }
    {
        self.choices.push(Choice {
            one,
            other,
            side: Side::First,
            stood: self.order,
        });
        given.record(&mut self.order, one, other);
    }
}

//! Going back where a trial came to a cycle.

ghost use Rattle.std.specs.Prelude.{◌≡◌};
ghost use Rattle.theory.specs.Case.{undone};
ghost use Rattle.desk.specs.Model.{events, model};
ghost use Rattle.desk.specs.Judged.{Fit};

use super::choice::{Choice, Side};
use super::desk::Desk;
use super::given::Given;
use super::state::State;

impl Desk {
    /// Undoes the choices that stand, from the latest back, each with all that was recorded since, to the first found on its first side:
    /// that one goes to its second side. Where there is none, both ways of every choice came to a cycle, and nothing is left to try.
    pub(super) fn undo(&mut self, given: &Given)
        requires fit { Fit (events given.now) (model given.now self.old) }
        requires still_open { self.old.state ≡ State.Open }
        ensures { model given.now self.new ≡ undone (model given.now self.old).order (model given.now self.old).choices }
    {
        while let Some(choice) = self.choices.pop() {
            self.order = choice.stood;
            if choice.side == Side::First {
                given.record(&mut self.order, choice.other, choice.one);
                self.choices.push(Choice {
                    side: Side::Second,
                    ..choice
                });
                return;
            }
        }
        self.state = State::Impossible;
    }
}

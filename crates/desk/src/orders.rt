//! The order that ends a case.

ghost use Rattle.std.specs.Prelude.{◌≡◌, length};
ghost use Rattle.theory.specs.Case.{propose, after};
ghost use Rattle.desk.specs.Model.{events, model};

use super::desk::Desk;
use super::given::Given;
use super::state::State;

impl Desk {
    /// Admits an order that was found to be a serialization: the case is serial, and the order shows it.
    pub fn admit(&mut self, given: &Given, order: &[u8])
        requires full_length { length order.now ≡ length (events given.now) }
        requires still_open { self.old.state ≡ State.Open }
        ensures { model given.now self.new ≡ after (events given.now) (model given.now self.old) (propose order.now) }
    {
        // a copy is written and put back whole, so that the fact beside the array holds at each step
        let mut admitted = self.admitted;
        admitted[..order.len()].copy_from_slice(order);
        self.admitted = admitted;
        self.state = State::Serial;
    }
}

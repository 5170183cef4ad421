//! An order that is changed on trial.

ghost use Rattle.std.specs.Prelude.{◌≡◌};

use super::order::Order;

/// Lends an order for a trial. When the guard goes, by whatever way out, the order is again what was saved.
/// `lend` saves the order as it is. A guard may also be made with another order to put back.
pub struct Restore<'a> {
    pub order: &'a mut Order,
    pub saved: Order,
}

impl<'a> Restore<'a> {
    /// Lends this order, and saves it as it is.
    pub fn lend(order: &'a mut Order) -> Restore<'a>
        ensures same_order { result.order.ghost_name ≡ order.entry.ghost_name }
        ensures unchanged { result.order.now ≡ order.old }
        ensures saved { result.saved ≡ order.old }
    {
        let saved = *order;
        Restore { order, saved }
    }
}

impl Drop for Restore<'_> {
    fn drop(self)
        ensures { self.exit.0.now ≡ self.entry.saved }
    {
        let Restore { order, saved } = self;
        *order = saved;
    }
}

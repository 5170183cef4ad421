//! An order, read and written as far as a case has operations.

ghost use Rattle.std.specs.Prelude.{◌≡◌, ◌<◌, length};
ghost use Rattle.execution.specs.Operations.{source as source_in};
ghost use Rattle.order.specs.Rows.{rows_of};
ghost use Rattle.theory.specs.Order.{before, cyclic, recorded};
ghost use Rattle.desk.specs.Model.{events};

use super::given::Given;
use order::Order;

impl Given {
    /// The store that a load saw; of what is no load, 0.
    // As the definition `source` has it: an `Option` would be taken apart again at each call.
    pub(super) fn source(&self, load: u8) -> u8
        requires { load < length (events self.now) }
        ensures is { result ≡ source_in (events self.now) load }
        ensures within { result < length (events self.now) }
    {
        self.execution
            .source(usize::from(load))
            .map_or(0, |store| store as u8)
    }

    /// Whether a is before b.
    pub(super) fn before(&self, order: &Order, a: u8, b: u8) -> bool
        requires a_in_bounds { a < length (events self.now) }
        requires b_in_bounds { b < length (events self.now) }
        ensures { result ≡ before (rows_of self.now.execution order.now) a b }
    {
        order.stands(self.execution.len(), usize::from(a), usize::from(b))
    }

    /// Whether an operation is before itself.
    pub(super) fn cyclic(&self, order: &Order) -> bool
        ensures { result ≡ cyclic (rows_of self.now.execution order.now) }
    {
        order.cyclic(self.execution.len())
    }

    /// Records that a is before b.
    #[tactic(auto, using(rules::proofs::Executions::cut))]
    pub(super) fn record(&self, order: &mut Order, a: u8, b: u8)
        requires a_in_bounds { a < length (events self.now) }
        requires b_in_bounds { b < length (events self.now) }
        ensures { rows_of self.now.execution order.new ≡ recorded a b (rows_of self.now.execution order.old) }
    {
        order.record(usize::from(a), usize::from(b));
    }
}

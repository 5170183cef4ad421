//! How a case begins.

ghost use Rattle.std.specs.Prelude.{◌≡◌};
ghost use Rattle.execution.specs.Calls.{ops};
ghost use Rattle.order.specs.Rows.{rows_of};
ghost use Rattle.theory.specs.Serial.{LawfulOrder};
ghost use Rattle.theory.specs.Case.{opened};
ghost use Rattle.desk.specs.Local.{relation};
ghost use Rattle.desk.specs.Model.{model};

use super::choice::{Choice, Side};
use super::desk::Desk;
use super::given::Given;
use super::state::State;
use execution::Execution;
use order::Order;
use room::Room;

impl Given {
    /// What a case over this execution is opened with.
    pub fn new(execution: Execution, local: Order, opening: Order) -> Given
        requires { LawfulOrder (relation execution local) (ops execution) }
        ensures execution { result.execution ≡ execution }
        ensures local { result.local ≡ local }
        ensures opening { result.opening ≡ opening }
    {
        Given {
            execution,
            local,
            opening,
        }
    }
}

impl Desk {
    /// The desk of a new case: its order is the opening order, and no choice stands.
    pub fn new(opening: &Order) -> Desk
        ensures { (g : Given) → model g result ≡ opened (rows_of g.execution opening.now) }
    {
        // what fills the room is never read
        let blank = Choice {
            one: 0,
            other: 0,
            side: Side::First,
            stood: *opening,
        };
        Desk {
            order: *opening,
            choices: Room::new(blank),
            state: State::Open,
            admitted: [0; 32],
        }
    }
}

//! Orders that are proposed, and when a case admits one.

ghost use Rattle.std.specs.Prelude.{◌≡◌, Err};
ghost use Rattle.theory.specs.Case.{propose, Replies};
ghost use Rattle.desk.specs.Model.{events, locally, model};
ghost use Rattle.desk.specs.Judged.{answer_of};
ghost use Rattle.house.specs.Orders.{is_serial};

use desk::{Desk, Given, State};
use field::Refusal;
use opening::opening_order;
use serialization::{is_misshapen, is_serialization, names_unknown};

/// Is the order a serialization? It is held to the opening order, made anew, so that the answer rests on the local order alone.
/// The recorded order plays no part: a choice under trial may have put into it what some serializations do not keep.
fn is_serial(given: &Given, order: &[u8]) -> bool
    ensures { result ≡ is_serial given.now order.now }
{
    let opening = opening_order(&given.execution, &given.local);
    is_serialization(&given.execution, &opening, order)
}

/// Proposes an order, which is admitted exactly if it is a serialization, whatever choices stand.
/// Of all reasons to turn it away the one with the smallest number is told, and a refused order leaves all as it was.
pub fn propose(given: &Given, desk: &mut Desk, order: &[u8]) -> Result<(), Refusal>
    ensures replies { Replies (locally given.now) (events given.now) (model given.now desk.old) (propose order.now) (answer_of result) (model given.now desk.new) }
    ensures kept { (e : Refusal) → result ≡ Err e → desk.new ≡ desk.old }
{
    match desk.state {
        _ if names_unknown(&given.execution, order) => Err(Refusal::NoSuchOperation),
        _ if is_misshapen(&given.execution, order) => Err(Refusal::IncompleteOrder),
        State::Serial | State::Impossible => Err(Refusal::CaseEnded),
        State::Open if !is_serial(given, order) => Err(Refusal::NotSerialization),
        State::Open => {
            desk.admit(given, order);
            Ok(())
        }
    }
}

//! What a case is opened with.

ghost use Rattle.desk.specs.Local.{Inside, Starts, KeepsAddresses};

use execution::Execution;
use order::Order;

/// What a case is opened with and never changes: the execution, its local order, and the order recorded at first.
/// The local order is lawful, whatever book it came from: its pairs are from the start or of the program order,
/// all pairs from the start are in it, and all of the program order on one address with a store.
// It is lent apart from the `Desk`, which changes, so that no contract of a desk or a house has to say that it stays as it was.
#[derive(Drop)]
pub struct Given {
    pub execution: Execution,
    pub local: Order,
    pub opening: Order,
    ghost inside: { Inside execution local },
    ghost starts: { Starts execution local },
    ghost addresses: { KeepsAddresses execution local },
}

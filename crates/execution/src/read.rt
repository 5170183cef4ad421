//! A record's bytes into an execution.

ghost use Rattle.std.specs.Prelude.{◌≡◌, ◌+◌, ◌*◌, ◌<◌, ◌≤◌, length, IfErr, Ok, Err, MatchResult, if◌then◌else◌};
ghost use Rattle.room.specs.Held.{held};
ghost use Rattle.execution.specs.Formed.{opened};
ghost use Rattle.execution.specs.Reading.{action_in, thread_in, kind_in, address_in, dependence_in, operation_of, body_refusal, unless_refused, dependence_of, may_depend, operation_in, edition_in, operations_in, may_see, sources_from, record_in};

use super::bytes::{EDITION_TAG, NONE, OPERATION_TAG};
use super::operation::{Action, BLANK, Operation};
use field::{Fault, Layer, Refusal, expect_field, within};
use room::Room;

// By the numbers of the format. No `TryFrom`: a tuple of three numbers would be no plainer.
/// The action that the bytes of a kind, an address and a source say; only a kind that touches an address may have one.
fn action_in(kind: u8, address: u16, source: u8) -> Result<Action, Refusal>
    ensures { result ≡ action_in kind address source }
{
    match kind {
        1 => Ok(Action::Load { address, source }),
        2 => Ok(Action::Store { address }),
        3 | 4 if address != 0 => Err(Refusal::NeedlessAddress),
        3 => Ok(Action::Fence),
        4 => Ok(Action::Branch),
        _ => Err(Refusal::UnknownKind),
    }
}

/// Thread 0 has a store to the address.
fn is_opened(operations: &[Operation], address: u16) -> bool
    ensures { result ≡ opened operations.now address }
{
    let store = Action::Store { address };
    operations.iter().any(|operation| operation.thread == 0 && operation.action == store)
}

/// The dependence that a byte says; only an earlier operation of the same thread may be one, and thread 0 has none.
fn dependence_in(operations: &[Operation], thread: u8, byte: u8) -> Result<Option<u8>, Refusal>
    ensures { result ≡ (if may_depend operations.now thread byte then Ok (dependence_of byte) else Err Refusal.DependenceRule) }
{
    if byte == NONE {
        return Ok(None);
    }
    match operations.get(usize::from(byte)) {
        Some(earlier) if thread > 0 && earlier.thread == thread => Ok(Some(byte)),
        _ => Err(Refusal::DependenceRule),
    }
}

/// The operation that a body says, if it may come next.
fn operation_after(operations: &[Operation], body: [u8; 6]) -> Result<Operation, Refusal>
    ensures { result ≡ unless_refused (body_refusal operations.now (thread_in body) (kind_in body) (address_in body) (dependence_in body)) (operation_of body) }
{
    let [thread, kind, high, low, source, dependence] = body;
    let address = u16::from_be_bytes([high, low]);
    if operations.len() >= 32 {
        return Err(Refusal::TooManyOperations);
    }
    if thread > 8 {
        return Err(Refusal::ThreadTooHigh);
    }
    let action = action_in(kind, address, source)?;
    if thread == 0 && (!action.is_store() || is_opened(operations, address)) {
        return Err(Refusal::InitialRule);
    }
    let dependence = dependence_in(operations, thread, dependence)?;
    Ok(Operation {
        thread,
        action,
        dependence,
    })
}

/// The operation whose field is at the front of `bytes`, if it may come next.
fn read_operation(operations: &[Operation], bytes: &[u8]) -> Result<Operation, Fault>
    ensures told { result ≡ operation_in operations.now bytes.now }
    ensures fits { MatchResult result (λ o. (length operations.now < 32) × (9 ≤ length bytes.now)) (λ e. e.byte ≡ 0) }
{
    let field = expect_field(bytes, OPERATION_TAG, 6, Layer::Record)?;
    // It has the length that was due, so it is an array of 6.
    let body: [u8; 6] = field.try_into().unwrap();
    operation_after(operations, body).map_err(|refusal| Fault::here(refusal, Layer::Record))
}

/// The record begins with the field of its edition.
fn read_edition(bytes: &[u8]) -> Result<(), Fault>
    ensures told { result ≡ edition_in bytes.now }
    ensures fits { MatchResult result (λ _. 4 ≤ length bytes.now) (λ e. e.byte ≡ 0) }
{
    match expect_field(bytes, EDITION_TAG, 1, Layer::Record)? {
        [1] => Ok(()),
        _ => Err(Fault::here(Refusal::WrongEdition, Layer::Record)),
    }
}

/// The operations of the record, which come after its edition.
fn read_operations(bytes: &[u8]) -> Result<Room<Operation, 32>, Fault>
    requires { 4 ≤ length bytes.now }
    ensures told { MatchResult result (λ l. operations_in bytes.now ≡ Ok (held l)) (λ e. operations_in bytes.now ≡ Err e) }
    ensures fits { MatchResult result (λ l. 4 + 9 * length (held l) ≤ length bytes.now) (λ e. e.byte ≤ length bytes.now) }
{
    let mut listing = Room::new(BLANK);
    for at in (4..bytes.len()).step_by(9) {
        let operation = within(read_operation(listing.held(), &bytes[at..]), at)?;
        listing.push(operation);
    }
    Ok(listing)
}

/// The action may have this byte for its source.
fn may_see(operations: &[Operation], byte: u8, action: Action) -> bool
    ensures { result ≡ may_see operations.now byte action }
{
    match action {
        Action::Load { address, .. } => operations
            .get(usize::from(byte))
            .is_some_and(|operation| operation.action == Action::Store { address }),
        _ => byte == NONE,
    }
}

// That a fault lies within the bytes is said by each reader, since a fault itself knows no bytes.
/// Every source in the record is right; they may stand anywhere, so they are judged once all operations are known.
fn check_sources(operations: &[Operation], bytes: &[u8]) -> Result<(), Fault>
    requires { 4 + 9 * length operations.now ≤ length bytes.now }
    ensures told { result ≡ sources_from (length operations.now) operations.now bytes.now 0 }
    ensures near { IfErr result (λ e. e.byte ≤ length bytes.now) }
{
    for (number, operation) in operations.iter().enumerate() {
        // Counted, and no chunks zipped: the fault says the byte, so the number is needed anyway.
        let start = 4 + 9 * number;
        if !may_see(operations, bytes[start + 7], operation.action) {
            return Err(Fault {
                refusal: Refusal::SourceRule,
                byte: start,
                layer: Layer::Record,
            });
        }
    }
    Ok(())
}

/// What a record says: its edition, its operations, and then their sources.
pub(super) fn read_listing(bytes: &[u8]) -> Result<Room<Operation, 32>, Fault>
    ensures told { MatchResult result (λ l. record_in bytes.now ≡ Ok (held l)) (λ e. record_in bytes.now ≡ Err e) }
    ensures near { IfErr result (λ e. e.byte ≤ length bytes.now) }
{
    read_edition(bytes)?;
    let listing = read_operations(bytes)?;
    check_sources(listing.held(), bytes)?;
    Ok(listing)
}

//! An execution into a record's bytes.

ghost use Rattle.std.specs.Prelude.{◌≡◌, ◌+◌, ◌≤◌, [], ◌∷◌, ◌++◌, length, take, drop};
ghost use Rattle.execution.specs.Writing.{kind_byte, field_of};

use super::bytes::{EDITION_TAG, NONE, OPERATION_TAG};
use super::operation::{Action, Operation};

/// The number of the kind in a record.
// By cases, since a kind that holds an address has no number of its own.
fn kind_byte(action: Action) -> u8
    ensures { result ≡ kind_byte action }
{
    match action {
        Action::Load { .. } => 1,
        Action::Store { .. } => 2,
        Action::Fence => 3,
        Action::Branch => 4,
    }
}

/// The field of an operation.
fn field_of(operation: Operation) -> [u8; 9]
    ensures { result ≡ field_of operation }
{
    let [high, low] = operation.action.address().unwrap_or(0).to_be_bytes();
    [
        OPERATION_TAG,
        0,
        6,
        operation.thread,
        kind_byte(operation.action),
        high,
        low,
        operation.action.source().unwrap_or(NONE),
        operation.dependence.unwrap_or(NONE),
    ]
}

/// Puts an operation's field at the byte `at`.
pub(super) fn put_operation(out: &mut [u8], at: usize, operation: Operation)
    requires { at + 9 ≤ length out.old }
    ensures front { take (at + 9) out.new ≡ take at out.old ++ field_of operation }
    ensures rest { drop (at + 9) out.new ≡ drop (at + 9) out.old }
{
    out[at..at + 9].copy_from_slice(&field_of(operation));
}

/// Puts the edition's field at the front.
pub(super) fn put_edition(out: &mut [u8])
    requires { 4 ≤ length out.old }
    ensures front { take 4 out.new ≡ 16 ∷ 0 ∷ 1 ∷ 1 ∷ [] }
    ensures rest { drop 4 out.new ≡ drop 4 out.old }
{
    out[..4].copy_from_slice(&[EDITION_TAG, 0, 1, 1]);
}

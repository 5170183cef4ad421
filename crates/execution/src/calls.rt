//! What can be done with an execution.

ghost use Rattle.std.specs.Prelude.{◌≡◌, ◌≤◌, [], length, IfErr, if◌then◌else◌, Some, None, nat_lt};
ghost use Rattle.execution.specs.Operations.{op};
ghost use Rattle.execution.specs.Reading.{record_in};
ghost use Rattle.execution.specs.Calls.{ops, Taken, SameBytes, SameExecution, Written};

use super::execution::Execution;
use super::operation::{BLANK, Operation};
use super::read::read_listing;
use super::write::{put_edition, put_operation};
use field::{Fault, Refusal};
use room::Room;

impl Execution {
    /// No operations.
    pub fn new() -> Execution
        ensures { ops result ≡ [] }
    {
        Execution {
            listing: Room::new(BLANK),
        }
    }

    /// How many operations there are.
    pub fn len(&self) -> usize
        ensures { result ≡ length (ops self.now) }
    {
        self.listing.len()
    }

    /// The operation with this number, if there is one.
    pub fn operation(&self, number: usize) -> Option<Operation>
        ensures { result ≡ (if nat_lt number (length (ops self.now)) then Some (op (ops self.now) number) else None) }
    {
        self.listing.held().get(number).copied()
    }

    /// Takes over what the bytes of a record say, whole; a refused record leaves the execution as it was.
    pub fn read(&mut self, bytes: &[u8]) -> Result<(), Fault>
        ensures taken { Taken (record_in bytes.now) self.old result self.new }
        ensures same_bytes { SameBytes bytes.now result self.new }
        ensures same_execution { SameExecution bytes.now result self.new }
        ensures near { IfErr result (λ e. e.byte ≤ length bytes.now) }
    {
        let listing = read_listing(bytes)?;
        *self = Execution { listing };
        Ok(())
    }

    /// Writes the record of the execution into the first bytes of `out`, and says how many they are.
    pub fn write(&self, out: &mut [u8]) -> Result<usize, Refusal>
        ensures written { Written (ops self.now) out.old result out.new }
    {
        let size = 4 + 9 * self.len();
        if out.len() < size {
            return Err(Refusal::MemoryTooShort);
        }
        put_edition(out);
        for (number, operation) in self.listing.held().iter().enumerate() {
            // Counted, and no chunks zipped: nothing is known of what a loop over `chunks_exact_mut` writes.
            put_operation(out, 4 + 9 * number, *operation);
        }
        Ok(size)
    }
}

//! Writing out the order that was admitted.

ghost use Rattle.std.specs.Prelude.{length};
ghost use Rattle.theory.specs.Case.{order_out};
ghost use Rattle.desk.specs.Model.{events, model};
ghost use Rattle.caseroom.specs.Written.{WrittenOut};

use super::case::Case;
use desk::State;
use field::Refusal;

impl Case {
    /// Writes the order that a serial case admitted into the first bytes of `out`, one for each operation, and says how many they are.
    /// The rest is left as it was, and a refusal touches nothing.
    pub fn write_order(&self, out: &mut [u8]) -> Result<usize, Refusal>
        ensures { WrittenOut (length (events self.now.given)) (order_out (events self.now.given) (model self.now.given self.now.desk) (length out.old)) out.old result out.new }
    {
        let n = self.given.execution.len();
        match self.desk.state {
            _ if out.len() < n => Err(Refusal::MemoryTooShort),
            State::Open | State::Impossible => Err(Refusal::NotSerial),
            State::Serial => {
                out[..n].copy_from_slice(&self.desk.admitted[..n]);
                Ok(n)
            }
        }
    }
}

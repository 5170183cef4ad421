//! What a case says, and how it is closed off.

ghost use Rattle.std.specs.Prelude.{◌≡◌, ℕ, List, length};
ghost use Rattle.theory.specs.Serial.{Serialization};
ghost use Rattle.desk.specs.Model.{events, locally, model};

use super::case::Case;
use desk::State;

impl Case {
    /// What the case has come to. Where it says serial, the order that it admitted is a serialization; where it says impossible, there is none.
    pub fn state(&self) -> State
        ensures is { result ≡ self.now.desk.state }
        ensures serial { result ≡ State.Serial → Serialization (locally self.now.given) (events self.now.given) (model self.now.given self.now.desk).witness }
        ensures impossible { result ≡ State.Impossible → (σ : List ℕ) → Serialization (locally self.now.given) (events self.now.given) σ → ⊥ }
    {
        self.desk.state
    }

    /// Closes the case off, which uses it up: what it came to, and how many operations it was about.
    pub fn close_off(self) -> (State, usize)
        ensures is { result.0 ≡ self.desk.state }
        ensures size { result.1 ≡ length (events self.given) }
        ensures serial { result.0 ≡ State.Serial → Serialization (locally self.given) (events self.given) (model self.given self.desk).witness }
        ensures impossible { result.0 ≡ State.Impossible → (σ : List ℕ) → Serialization (locally self.given) (events self.given) σ → ⊥ }
    {
        (self.state(), self.given.execution.len())
    }
}

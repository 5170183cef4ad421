//! What the state of a case says in words.

ghost use Rattle.std.specs.Prelude.{Some};
ghost use Rattle.desk.specs.Words.{state_text};

use super::state::State;
use std::fmt;

/// What a case has come to, as a word.
impl fmt::Display for State {
    ghost output = { λ s. Some (state_text s) };

    fn fmt<W: fmt::Write>(&self, f: &mut fmt::Formatter<W>) -> fmt::Result {
        f.write_str(match self {
            State::Open => "open",
            State::Serial => "serial",
            State::Impossible => "impossible",
        })
    }
}

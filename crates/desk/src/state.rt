//! What a case has come to.

/// What a case says so far: nothing yet, that there is a serialization, or that there is none.
// Calls match on it, so what only an open case may do asks for that in a clause, and not by a type for each state.
#[derive(Debug, Clone, Copy, PartialEq, Eq)]
pub enum State {
    Open,
    Serial,
    Impossible,
}

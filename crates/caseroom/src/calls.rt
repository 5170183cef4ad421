//! All that a case can be asked, and all that it answers, so that a whole sequence of calls can be heard.

use desk::State;
use field::Refusal;
use rules::Claim;

/// A call on a case.
#[derive(Debug, Clone, Copy, PartialEq, Eq)]
pub enum Call<'a> {
    /// A claim.
    Claim(Claim),
    /// This order is a serialization.
    Order(&'a [u8]),
    /// Let the house take up to so many turns.
    House(u16),
    /// What would follow if a were before b?
    WhatIf { a: u8, b: u8 },
    /// Is a before b in the least order?
    Least { a: u8, b: u8 },
}

/// What a case says to a call that it does not refuse.
#[derive(Debug, Clone, Copy, PartialEq, Eq)]
pub enum Reply {
    /// The claim or the order is taken.
    Admitted,
    /// How many turns the house took, and the state after them.
    Made(u16, State),
    /// How many pairs would be added, and whether there would be a cycle.
    // `cycle` first: fields lie in the order in which they stand here, and with `added` first an answer would be four bytes longer.
    Supposed { cycle: bool, added: u32 },
    /// Yes or no.
    Says(bool),
}

/// What a call answers: a reply, or why it is turned away.
pub type Answer = Result<Reply, Refusal>;

// One who lends memory for answers pays for each.
const _: () = prove!(size_of::<Answer>() == 12);

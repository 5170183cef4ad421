//! A case: opened on an execution under a rule book, it takes claims and answers questions until it has its verdict.
#![tactic(auto)]

mod calls;
mod case;
mod claims;
mod least;
mod measures;
mod names;
mod open;
mod orders;
mod session;
mod supposing;
mod turns;
mod verdict;
mod writing;

pub use calls::{Answer, Call, Reply};
pub use case::Case;
pub use session::{Unheard, hear};

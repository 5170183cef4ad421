//! What the house does in a case: it judges the orders that are proposed, and takes turns of its own.
#![tactic(auto)]

mod budget;
mod next;
mod orders;
mod turning;

pub use budget::house;
pub use orders::propose;
pub use turning::turn;

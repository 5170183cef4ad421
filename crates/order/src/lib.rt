//! The recorded order of an execution: which operations are known to come before which.
#![tactic(auto)]

mod bits;
mod guard;
mod order;
mod undecided;

pub use bits::{has, lowest};
pub use guard::Restore;
pub use order::Order;

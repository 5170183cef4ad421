//! The orders with which a case begins, and how much they leave to decide.
#![tactic(auto)]

mod direct;
mod local;
mod opened;
mod rivals;

pub use direct::opening_order;
pub use local::local_order;
pub use opened::{Opened, open};
pub use rivals::undecided;

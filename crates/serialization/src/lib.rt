//! Serializations: orders of all operations, as lists of their numbers, in which each load sees the last store before it to its address.
#![tactic(auto)]

mod places;
mod placing;
mod serial;
mod shape;

pub use placing::{Arrangement, lowest_first};
pub use serial::is_serialization;
pub use shape::{is_misshapen, names_unknown};

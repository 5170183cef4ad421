//! Lists in a fixed room, so that nothing is allocated.
#![tactic(auto)]

mod room;

pub use room::Room;

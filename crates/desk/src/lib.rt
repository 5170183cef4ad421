//! What changes in a case, and what a claim does to it.
#![tactic(auto)]

mod choice;
mod choose;
mod claims;
mod desk;
mod given;
mod open;
mod orders;
mod questions;
mod rows;
mod state;
mod undo;
mod words;

pub use desk::Desk;
pub use given::Given;
pub use questions::{names, premise, stands};
pub use state::State;

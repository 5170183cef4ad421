//! Executions: what was recorded of a program's run, and its record as bytes.
#![tactic(auto)]

mod bytes;
mod calls;
mod execution;
mod operation;
mod questions;
mod read;
mod rules;
mod write;

pub use execution::Execution;
pub use operation::{Action, Operation, shared};
pub use rules::rules_are_tested;

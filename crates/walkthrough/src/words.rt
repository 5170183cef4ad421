//! What the operations say in words.

use execution::{Action, Operation};
use std::fmt;

/// An operation as a sentence, with the operation that it depends on, if any.
#[derive(Drop)]
pub(super) struct Sentence(pub(super) Operation);

impl fmt::Display for Sentence {
    fn fmt<W: fmt::Write>(&self, f: &mut fmt::Formatter<W>) -> fmt::Result {
        let Operation {
            thread,
            action,
            dependence,
        } = self.0;
        match action {
            Action::Load { address, source } => write!(
                f,
                "thread {thread} loads address {address} and saw store {source}"
            )?,
            Action::Store { address } if thread == 0 => {
                write!(f, "address {address} holds a value at the start")?
            }
            Action::Store { address } => write!(f, "thread {thread} stores to address {address}")?,
            Action::Fence => write!(f, "thread {thread} has a fence")?,
            Action::Branch => write!(f, "thread {thread} has a branch")?,
        }
        match dependence {
            Some(earlier) => write!(f, "; it depends on {earlier}"),
            None => Ok(()),
        }
    }
}

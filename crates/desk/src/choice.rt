//! Choices between two stores that no rule decides.

use order::Order;

/// Which way of a choice is under trial: `one` before `other`, or `other` before `one`.
#[derive(Debug, Clone, Copy, PartialEq, Eq)]
pub(crate) enum Side {
    First,
    Second,
}

/// A choice that stands. It keeps the order as it stood before the choice, since undoing it goes back to that.
#[derive(Debug, Clone, Copy, PartialEq, Eq)]
pub(crate) struct Choice {
    pub(super) one: u8,
    pub(super) other: u8,
    pub(super) side: Side,
    pub(super) stood: Order,
}

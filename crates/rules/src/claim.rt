//! What can be claimed of an execution.

/// A claim, with the numbers of the operations that it names.
#[derive(Debug, Clone, Copy, PartialEq, Eq)]
pub enum Claim {
    /// By rule a of a load: the store is before the store that the load saw.
    A { load: u8, store: u8 },
    /// By rule b of a load: the load is before the store.
    B { load: u8, store: u8 },
    /// By rule c of two loads: a is before b.
    C { first: u8, second: u8, a: u8, b: u8 },
    /// By no rule: try s before t, and the other way later.
    Split { s: u8, t: u8 },
    /// The recorded order has a cycle.
    Close,
}

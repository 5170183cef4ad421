//! Operations, as the threads of a program issue them.

ghost use Rattle.std.specs.Prelude.{◌≡◌, if◌then◌else◌, Some, None};
ghost use Rattle.execution.specs.Operations.{address_of, is_load, is_store, source_of, shared};

/// What an operation does. Only loads and stores touch an address; only a load has a source, the number of the store that it saw.
#[derive(Debug, Clone, Copy, PartialEq, Eq)]
pub enum Action {
    Load { address: u16, source: u8 },
    Store { address: u16 },
    Fence,
    Branch,
}

impl Action {
    /// The address that it touches, if any.
    pub(super) fn address(self) -> Option<u16>
        ensures { result ≡ address_of self }
    {
        match self {
            Action::Load { address, .. } | Action::Store { address } => Some(address),
            Action::Fence | Action::Branch => None,
        }
    }

    /// The number of the store that it saw, if it is a load.
    pub(super) fn source(self) -> Option<u8>
        ensures { result ≡ (if is_load self then Some (source_of self) else None) }
    {
        match self {
            Action::Load { source, .. } => Some(source),
            _ => None,
        }
    }

    /// Is it a store?
    pub(super) fn is_store(self) -> bool
        ensures { result ≡ is_store self }
    {
        matches!(self, Action::Store { .. })
    }
}

/// One operation. Thread 0 holds the initial stores, what memory held at first; threads 1 to 8 run.
#[derive(Debug, Clone, Copy, PartialEq, Eq)]
pub struct Operation {
    pub thread: u8,
    pub action: Action,
    /// The number of an earlier operation of the same thread that this one needs, if any.
    pub dependence: Option<u8>,
}

/// What fills a room before operations come: it is never read.
pub(super) const BLANK: Operation = Operation {
    thread: 0,
    action: Action::Fence,
    dependence: None,
};

/// Are both addresses there, and the same?
pub fn shared(a: Option<u16>, b: Option<u16>) -> bool
    ensures { result ≡ shared a b }
{
    a.is_some() && a == b
}

//! What the rules of orders ask about operations. A number past the end is no load and no store, and has no address.

ghost use Rattle.std.specs.Prelude.{◌≡◌, ◌<◌, true, false, length, MatchOption};
ghost use Rattle.execution.specs.Operations.{op, address_of, load_at, store_at, initial, same_address, source as source_in, touches as touches_in, rivals as rivals_in};
ghost use Rattle.execution.specs.Calls.{ops};

use super::execution::Execution;
use super::operation::shared;

impl Execution {
    /// The store that this load saw; nothing where the number is not that of a load.
    pub fn source(&self, load: usize) -> Option<usize>
        ensures { MatchOption result (load_at (ops self.now) load ≡ false) (λ s. (load_at (ops self.now) load ≡ true) × (s ≡ source_in (ops self.now) load) × (s < length (ops self.now))) }
    {
        self.operation(load)?.action.source().map(usize::from)
    }

    /// Is this a store?
    pub fn is_store(&self, number: usize) -> bool
        ensures { result ≡ store_at (ops self.now) number }
    {
        self.operation(number)
            .is_some_and(|operation| operation.action.is_store())
    }

    /// Is this an initial store?
    pub fn is_initial(&self, number: usize) -> bool
        ensures { result ≡ initial (ops self.now) number }
    {
        self.operation(number)
            .is_some_and(|operation| operation.thread == 0)
    }

    /// The address that this operation touches, if any.
    fn address(&self, number: usize) -> Option<u16>
        ensures { result ≡ address_of (op (ops self.now) number).action }
    {
        self.operation(number)?.action.address()
    }

    /// Do both touch one address?
    pub fn same_address(&self, a: usize, b: usize) -> bool
        ensures { result ≡ same_address (ops self.now) a b }
    {
        shared(self.address(a), self.address(b))
    }

    /// Is this a store to the address of this load?
    pub fn touches(&self, store: usize, load: usize) -> bool
        ensures { result ≡ touches_in (ops self.now) store load }
    {
        self.is_store(store) && self.source(load).is_some() && self.same_address(store, load)
    }

    /// Are these different stores to one address?
    pub fn rivals(&self, s: usize, t: usize) -> bool
        ensures { result ≡ rivals_in (ops self.now) s t }
    {
        self.is_store(s) && self.is_store(t) && self.same_address(s, t) && s != t
    }
}

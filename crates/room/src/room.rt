//! A list in a fixed room.

ghost use Rattle.std.specs.Prelude.{◌≡◌, ◌≤◌, length, ⊤};

use std::alloc::AllocError;

/// A list of at most N items: the first `count` of an array. What stands past them is never read.
// Our own, since a library's vector in an array may not be copied, as a room of operations or of numbers may.
pub struct Room<T, const N: usize> {
    items: [T; N],
    count: usize,
    ghost room: { length items ≡ N },
    ghost few: { count ≤ N },
}

// Lists of operations and of numbers may be copied, as their items may.
impl<T: Copy, const N: usize> Copy for Room<T, N> {}

impl<T: Copy, const N: usize> Clone for Room<T, N> {
    ghost is_clone = { λ room copy. copy ≡ room };

    ghost is_infallible = { λ _. ⊤ };

    fn clone(&self) -> Result<Room<T, N>, AllocError> {
        Ok(*self)
    }
}

impl<T: Copy, const N: usize> Room<T, N> {
    ghost use Rattle.std.specs.Prelude.{◌<◌, [], ◌∷◌, ◌++◌, MatchOption};
    ghost use Rattle.room.specs.Held.{held};

    /// Nothing is held. The room has to be filled with something: `blank`, which is never read.
    pub fn new(blank: T) -> Room<T, N>
        ensures { held result ≡ [] }
    {
        Room {
            items: [blank; N],
            count: 0,
        }
    }

    /// What is held, first to last.
    pub fn held(&self) -> &[T]
        ensures { result.now ≡ held self.now }
    {
        &self.items[..self.count]
    }

    /// How many are held.
    pub fn len(&self) -> usize
        ensures { result ≡ length (held self.now) }
    {
        self.held().len()
    }

    /// One more at the end.
    pub fn push(&mut self, item: T)
        requires { length (held self.old) < N }
        ensures { held self.new ≡ held self.old ++ item ∷ [] }
    {
        self.items[self.count] = item;
        self.count += 1;
    }

    /// Takes the last, if there is one.
    pub fn pop(&mut self) -> Option<T>
        ensures { MatchOption result ((held self.old ≡ []) × (self.new ≡ self.old)) (λ last. held self.old ≡ held self.new ++ last ∷ []) }
    {
        if self.count == 0 {
            return None;
        }
        self.count -= 1;
        Some(self.items[self.count])
    }
}

// Making a list of few elements, what it holds, and how it grows. Alike to a list over lent memory, and apart from it: this one is copied with the value in which it
// lies, and that one promises whose memory it holds.
ghost use Rattle.std.specs.Prelude.{◌≡◌, ◌+◌, ◌≤◌, ⊤, [], ◌++◌, length, Ok, Err, if◌then◌else◌, nat_le, nat_lt};
ghost use Rattle.terms.specs.Few.{items};
ghost use Rattle.terms.specs.Lists.{◌▷◌};

use crate::{Few, NoRoom};
use std::alloc::AllocError;

// By hand: a derive is refused over the ghost fields of a generic struct.
impl<T: Copy, const N: usize> Clone for Few<T, N> {
    ghost is_clone = { λ x y. y ≡ x };

    ghost is_infallible = { λ _. ⊤ };

    fn clone(&self) -> Result<Few<T, N>, AllocError> {
        Ok(*self)
    }
}

impl<T: Copy, const N: usize> Few<T, N> {
    // No elements; `blank` stands where none is.
    pub fn new(blank: T) -> Few<T, N>
        ensures { items result ≡ [] }
    {
        Few {
            slots: [blank; N],
            len: 0,
        }
    }

    pub fn clear(&mut self)
        ensures { items self.new ≡ [] }
    {
        self.len = 0;
    }

    pub fn as_slice(&self) -> &[T]
        ensures items { result.now ≡ items self.now }
        ensures few { length result.now ≤ N }
    {
        let slots: &[T] = &self.slots;
        &slots[..self.len]
    }

    // One element more, unless there are `N`.
    pub fn push(&mut self, x: T) -> Result<(), NoRoom>
        ensures room { result ≡ (if nat_lt (length (items self.old)) N then Ok tt else Err (record {})) }
        ensures after { items self.new ≡ (if nat_lt (length (items self.old)) N then (items self.old ▷ x) else items self.old) }
    {
        if self.len >= N {
            return Err(NoRoom);
        }
        self.slots[self.len] = x;
        self.len += 1;
        Ok(())
    }

    // The elements of a slice more, unless there would be more than `N`.
    pub fn extend_from_slice(&mut self, more: &[T]) -> Result<(), NoRoom>
        ensures room { result ≡ (if nat_le (length (items self.old) + length more.now) N then Ok tt else Err (record {})) }
        ensures after { items self.new ≡ (if nat_le (length (items self.old) + length more.now) N then items self.old ++ more.now else items self.old) }
    {
        if more.len() > N - self.len {
            return Err(NoRoom);
        }
        let past = self.len + more.len();
        let slots = &mut self.slots[..];
        slots[self.len..past].copy_from_slice(more);
        self.len = past;
        Ok(())
    }
}

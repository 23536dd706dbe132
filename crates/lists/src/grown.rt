// Making a list over lent memory, what it holds, and how it grows.
ghost use Rattle.std.specs.Prelude.{◌≡◌, ◌≤◌, [], length, Ok, Err, if◌then◌else◌, nat_lt, slice_set};
ghost use Rattle.std.specs.List.{slice_get};
ghost use Rattle.terms.specs.Lists.{◌▷◌};
ghost use Rattle.lists.specs.Grown.{items, room, over, lender};

use super::grow::GrowList;
use terms::NoRoom;

impl<'a, T: Copy> GrowList<'a, T> {
    // A list that holds nothing yet. `lender` says that its memory is the caller's own, so that the caller knows what stands there afterwards.
    pub fn new(memory: &'a mut [T]) -> GrowList<'a, T>
        ensures items { items result ≡ [] }
        ensures over { over result ≡ memory.old }
        ensures lender { lender result ≡ memory.entry.ghost_name }
    {
        GrowList { memory, len: 0 }
    }

    pub fn len(&self) -> usize
        ensures count { result ≡ length (items self.now) }
        ensures within { result ≤ room self.now }
    {
        self.as_slice().len()
    }

    // How many elements there is memory for.
    pub fn room(&self) -> usize
        ensures { result ≡ room self.now }
    {
        self.memory.len()
    }

    pub fn as_slice(&self) -> &[T]
        ensures { result.now ≡ items self.now }
    {
        &self.memory[..self.len]
    }

    pub fn into_slice(self) -> &'a [T]
        ensures { result.now ≡ items self.entry }
    {
        let memory = self.memory;
        &memory[..self.len]
    }

    pub fn get(&self, i: usize) -> Option<T>
        ensures { result ≡ slice_get (items self.now) i }
    {
        self.as_slice().get(i).copied()
    }

    // One element more, unless there is no memory for it.
    pub fn push(&mut self, x: T) -> Result<(), NoRoom>
        ensures full { result ≡ (if nat_lt (length (items self.old)) (room self.old) then Ok tt else Err (record {})) }
        ensures items { items self.new ≡ (if nat_lt (length (items self.old)) (room self.old) then (items self.old ▷ x) else items self.old) }
        ensures room { room self.new ≡ room self.old }
        ensures lender { lender self.new ≡ lender self.old }
    {
        if self.len >= self.memory.len() {
            return Err(NoRoom);
        }
        self.memory[self.len] = x;
        self.len += 1;
        Ok(())
    }

    // Another element in the place of the i-th; nothing where there are not so many.
    pub fn put(&mut self, i: usize, x: T)
        ensures items { items self.new ≡ slice_set (items self.old) i x }
        ensures room { room self.new ≡ room self.old }
        ensures lender { lender self.new ≡ lender self.old }
    {
        if i < self.len {
            self.memory[i] = x;
        }
    }

    pub fn clear(&mut self)
        ensures items { items self.new ≡ [] }
        ensures over { over self.new ≡ over self.old }
        ensures lender { lender self.new ≡ lender self.old }
    {
        self.len = 0;
    }
}

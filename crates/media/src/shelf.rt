// Bytes at the front of an area.
ghost use Rattle.std.specs.Prelude.{◌≡◌, ◌+◌, ◌-◌, ◌≤◌, min, ◌++◌, length, take, drop};
ghost use Rattle.medium.specs.State.{all, settled, more, cut};
ghost use Rattle.media.specs.Fill.{on_shelf, size_of};

use crate::area::Area;

// The first `len` bytes of the area count, as far as it goes and there is room; the first `durable` of these outlast a
// failure. So every value has a meaning. A length stands beside the area, since a caller may lend it: it cannot grow. The room is
// handed to each method, since it is that of both areas of a store, whose shelves are swapped.
#[derive(Drop)]
pub struct Shelf<A> {
    area: A,
    len: usize,
    durable: usize,
}

impl<A: Area> Shelf<A> {
    // The first `len` bytes of the area, all durable.
    pub(super) fn new(area: A, len: usize) -> Shelf<A>
        ensures { (result.area ≡ area) × (result.len ≡ len) × (result.durable ≡ len) }
    {
        Shelf {
            area,
            len,
            durable: len,
        }
    }

    // How long the area is.
    pub(super) fn size(&self) -> usize
        ensures is { result ≡ size_of A.memory self.now }
        ensures long { length (A.memory self.now.area).bytes ≡ size_of A.memory self.now }
    {
        self.area.bytes().len()
    }

    // How many bytes there are.
    #[tactic(auto, using(crate::proofs::Fronts::count_front))]
    pub(super) fn count(&self, room: usize) -> usize
        ensures bytes { result ≡ length (all (on_shelf A.memory room self.now)) }
        ensures is { result ≡ min self.now.len (min room (size_of A.memory self.now)) }
        ensures long { length (A.memory self.now.area).bytes ≡ size_of A.memory self.now }
    {
        self.len.min(room.min(self.size()))
    }

    // How many of them are durable.
    pub(super) fn durable(&self, room: usize) -> usize
        ensures { result ≡ length (on_shelf A.memory room self.now).durable }
    {
        self.durable.min(self.count(room))
    }

    // Puts the bytes behind those that are there, as pending ones.
    #[tactic(auto, using(crate::proofs::Fronts::push_front))]
    pub(super) fn push(&mut self, room: usize, bytes: &[u8])
        requires { length (all (on_shelf A.memory room self.old)) + length bytes.now
            ≤ min room (size_of A.memory self.old) }
        ensures bytes { on_shelf A.memory room self.new ≡ more (on_shelf A.memory room self.old) bytes.now }
        ensures size { size_of A.memory self.new ≡ size_of A.memory self.old }
    {
        let at = self.count(room);
        self.area.put(at, bytes);
        self.len = at + bytes.len();
        self.durable = self.durable.min(at);
    }

    // Makes all bytes durable.
    pub(super) fn settle(&mut self, room: usize)
        ensures bytes { on_shelf A.memory room self.new ≡ settled (all (on_shelf A.memory room self.old)) }
        ensures size { size_of A.memory self.new ≡ size_of A.memory self.old }
    {
        self.len = self.count(room);
        self.durable = self.len;
    }

    // Keeps the first `keep` of the pending bytes, or all where there are fewer, and makes what is left durable.
    #[tactic(auto, using(crate::proofs::Fronts::cut_front))]
    pub(super) fn cut(&mut self, room: usize, keep: usize)
        ensures bytes { on_shelf A.memory room self.new ≡ cut keep (on_shelf A.memory room self.old) }
        ensures size { size_of A.memory self.new ≡ size_of A.memory self.old }
    {
        let len = self.count(room);
        let durable = self.durable(room);
        self.len = durable + keep.min(len - durable);
        self.durable = self.len;
    }

    pub(super) fn clear(&mut self)
        ensures { (self.new.area ≡ self.old.area) × (self.new.len ≡ 0) × (self.new.durable ≡ 0) }
    {
        self.len = 0;
        self.durable = 0;
    }

    // Copies the bytes from `offset` on to the front of `buf`, and answers how many.
    #[tactic(auto, using(crate::proofs::Fronts::read_front))]
    pub(super) fn read(&self, room: usize, offset: usize, buf: &mut [u8]) -> usize
        ensures count { result ≡ min (length buf.old) (length (all (on_shelf A.memory room self.now)) - offset) }
        ensures bytes { buf.new ≡ take result (drop offset (all (on_shelf A.memory room self.now))) ++ drop result buf.old }
    {
        let len = self.count(room);
        if offset >= len {
            return 0;
        }
        let n = buf.len().min(len - offset);
        buf[0..n].copy_from_slice(&self.area.bytes()[offset..offset + n]);
        n
    }
}

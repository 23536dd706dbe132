// A list that grows over memory that the caller lends: nothing here takes memory from a heap, so it is no Vec.
ghost use Rattle.std.specs.Prelude.{◌≤◌, length};

#[derive(Drop)]
pub struct GrowList<'a, T> {
    pub(super) memory: &'a mut [T],
    pub(super) len: usize,
    ghost fits: { len ≤ length memory.now },
}

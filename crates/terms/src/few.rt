// A list of at most `N` elements, which lie in the value itself. It can be copied, as the kit's `ArrayVec` cannot.
ghost use Rattle.std.specs.Prelude.{◌≡◌, ◌≤◌, length};

pub struct Few<T, const N: usize> {
    // Before the slots, so that what is written into a slot is known not to meet it.
    pub(super) len: usize,
    pub(super) slots: [T; N],
    ghost few: { len ≤ N },
    ghost long: { length slots ≡ N },
}

impl<T: Copy, const N: usize> Copy for Few<T, N> {}

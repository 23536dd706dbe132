// The lines of a text that are left.
ghost use Rattle.std.specs.Prelude.{◌+◌, ◌≤◌, length};

// Those that stand from `at` on, of which the first has this number.
#[derive(Drop)]
pub struct TextLines<'t> {
    pub(super) text: &'t [u8],
    pub(super) at: usize,
    pub(super) number: usize,
    ghost counted: { number ≤ at + 1 },
    ghost within: { at ≤ length text.now + 1 },
}

// The words that are left of a line, up to a mark.
ghost use Rattle.manifest.specs.Groups.{Measured};

use words::Token;

// Those that stand from `token` on, which was read and ends before `next`: each token is read once, and at the end of the words the one that ended them is at hand.
#[derive(Drop)]
pub(super) struct WordsLeft<'t> {
    pub(super) bytes: &'t [u8],
    pub(super) token: Token,
    pub(super) next: usize,
    ghost measured: { Measured bytes.now token next },
}

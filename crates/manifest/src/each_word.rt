// The words of a line, one by one, up to a mark.
ghost use Rattle.std.specs.Prelude.{◌≡◌, length, drop};
ghost use Rattle.std.specs.Iterator.{at_most};
ghost use Rattle.words.specs.Tokens.{tokens};
ghost use Rattle.manifest.specs.Building.{names_of};
ghost use Rattle.manifest.specs.Left.{tokens_left, Gives};

use super::words_left::WordsLeft;
use words::{Token, Word, next_token};

impl<'t> WordsLeft<'t> {
    // Those that stand from `at` on.
    pub(super) fn of(bytes: &'t [u8], at: usize) -> WordsLeft<'t>
        ensures left { tokens_left result ≡ tokens (drop at bytes.entry.now) }
        ensures same { result.bytes.now ≡ bytes.entry.now }
    {
        let (token, next) = next_token(bytes, at);
        WordsLeft { bytes, token, next }
    }
}

impl Iterator for WordsLeft<'_> {
    type Item = Word;

    ghost next_gives = { Gives };

    ghost remaining = { λ s. at_most (length (names_of (tokens_left s))) };

    fn next(&mut self) -> Option<Word> {
        let Token::Word(word) = self.token else {
            return None;
        };
        (self.token, self.next) = next_token(self.bytes, self.next);
        Some(word)
    }
}

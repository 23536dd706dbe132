// The tokens of a line, one by one.
ghost use Rattle.std.specs.Prelude.{◌≡◌, ◌+◌, drop};
ghost use Rattle.words.specs.Tokens.{front_token};
ghost use Rattle.words.specs.Shown.{shown, Counted, Marks};

use super::class::{Class, span_end};
use super::spelling::word_at;
use super::token::Token;
use lists::part;

// The mark that bytes begin with, or that there are none, and how long it is; none where something else begins.
fn mark(rest: &[u8]) -> Option<(Token, usize)>
    ensures { Marks rest.now result }
{
    match rest {
        [] => Some((Token::End, 0)),
        [b':', ..] => Some((Token::Colon, 1)),
        [b'|', b'|', ..] => Some((Token::Bars, 2)),
        [b'|', ..] => Some((Token::Bar, 1)),
        _ => None,
    }
}

// The next token from `at` on, and the offset behind it: of bytes and an offset, as `span_end`.
pub fn next_token(bytes: &[u8], at: usize) -> (Token, usize)
    ensures token { shown bytes.now result.0 ≡ (front_token (drop at bytes.now)).0 }
    ensures next { result.1 ≡ at + (front_token (drop at bytes.now)).1 }
    ensures counted { Counted bytes.now at result.0 result.1 }
{
    let start = span_end(bytes, at, Class::Space);
    if let Some((token, length)) = mark(part(bytes, start, bytes.len())) {
        return (token, start + length);
    }
    match word_at(bytes, start) {
        Some(word) => (Token::Word(word), start + word.place.length),
        None => (Token::Wrong, bytes.len()),
    }
}

// Words: names as they are spelled, with a `$` before each space, colon and `$`.
ghost use Rattle.std.specs.Prelude.{◌≡◌, ℕ, drop};
ghost use Rattle.std.specs.Option.{option_map};
ghost use Rattle.words.specs.Spelling.{ends, escapes, word, measured, EscapesBack};
ghost use Rattle.words.specs.Steps.{stepped, Leads, word_of};

use lists::part;
use terms::Place;

// Where a word stands, and the length of the name that it spells.
#[derive(Clone, Copy, PartialEq, Eq)]
pub struct Word {
    pub place: Place,
    pub length: usize,
}

// Whether a word ends before this byte. It is no case of `Class`, and `takes_sign` neither: a run of such bytes is never asked for, and a
// parameter that tells the two apart would move their bytes to the callers.
fn ends_word(b: u8) -> bool
    ensures { result ≡ ends b }
{
    matches!(char::from(b), ' ' | ':' | '|')
}

// Whether a `$` stands before this byte in a word.
fn takes_sign(b: u8) -> bool
    ensures { result ≡ escapes b }
{
    matches!(char::from(b), ' ' | ':' | '$')
}

// A `$` stands before a byte that takes none.
#[derive(Drop)]
struct WrongSign;

// What follows one byte of the name as the next bytes spell it, or nothing where the word ends before them.
fn step(rest: &[u8]) -> Result<Option<&[u8]>, WrongSign>
    ensures step { (at n : ℕ) → measured at n (word rest.now) ≡ stepped rest.now at n result }
    ensures leads { Leads rest.now result }
{
    let Some((b, behind)) = rest.split_first() else {
        return Ok(None);
    };
    if ends_word(*b) {
        return Ok(None);
    }
    if *b != b'$' {
        return Ok(Some(behind));
    }
    match behind.split_first() {
        Some((b, behind)) if takes_sign(*b) => Ok(Some(behind)),
        _ => Err(WrongSign),
    }
}

// The word that stands from `start` on, of bytes and an offset, as `span_end`; none where a `$` in it stands before another byte than a space, a colon or a `$`.
pub fn word_at(bytes: &[u8], start: usize) -> Option<Word>
    ensures word { result ≡ option_map (word_of start) (word (drop start bytes.now)) }
    ensures back { EscapesBack }
{
    let front = part(bytes, start, bytes.len());
    let mut rest = front;
    let mut length = 0;
    // A loop, and no iterator over the steps: a wrong sign is no end of them, but ends the call.
    while let Some(behind) = step(rest).ok()? {
        rest = behind;
        length += 1;
    }
    let place = Place {
        start,
        length: front.len() - rest.len(),
    };
    Some(Word { place, length })
}

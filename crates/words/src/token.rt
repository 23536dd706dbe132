// What stands in a line of words.
use super::spelling::Word;

// The end and what is not understood are tokens, and no None or Err: words end before either of them as before a mark, and a reader of
// words keeps whatever ended them. No reader asks for `Wrong` by its name: it is one more token that none of them takes.
#[derive(Clone, Copy, PartialEq, Eq)]
pub enum Token {
    Colon,
    Bar,
    Bars,
    // What is not understood, up to the end.
    Wrong,
    Word(Word),
    End,
}

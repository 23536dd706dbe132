// Runs of bytes of one class, and what some bytes begin with.
ghost use Rattle.std.specs.Prelude.{◌≡◌, ◌+◌, ◌≤◌, length, take, drop};
ghost use Rattle.std.specs.Str.{bytes_eq};
ghost use Rattle.terms.specs.Lists.{every};
ghost use Rattle.words.specs.Runs.{is_of, front};

use lists::part;

// An enum, and no closure: so the contracts are equations with a definition by the class, where a closure's would speak of its calls.
#[derive(Clone, Copy, PartialEq, Eq)]
pub enum Class {
    // A space.
    Space,
    // Any byte but a newline.
    InLine,
    // Any byte but a space or `=`.
    InKey,
    // A decimal digit.
    Digit,
    // A byte of 32 or more.
    Shown,
    // Any byte but 0.
    Nonzero,
}

impl Class {
    fn has(self, b: u8) -> bool
        ensures { result ≡ is_of self b }
    {
        match self {
            Class::Space => b == b' ',
            Class::InLine => b != b'\n',
            Class::InKey => b != b' ' && b != b'=',
            Class::Digit => b.is_ascii_digit(),
            Class::Shown => b >= 32,
            Class::Nonzero => b != 0,
        }
    }
}

// Where the bytes of a class that stand from `at` on end. Of the bytes and an offset, and no slice from there on, since it answers an offset in them.
pub fn span_end(bytes: &[u8], at: usize, class: Class) -> usize
    ensures end { result ≡ at + length (front (is_of class) (drop at bytes.now)) }
    ensures within { at ≤ length bytes.now → result ≤ length bytes.now }
{
    let rest = part(bytes, at, bytes.len());
    at + rest.iter().take_while(|b| class.has(**b)).count()
}

// Whether all bytes from `at` on are of a class. It takes the bytes and an offset as `span_end` does, so that a line is read with the same two.
pub fn all_of(bytes: &[u8], at: usize, class: Class) -> bool
    ensures { result ≡ every (is_of class) (drop at bytes.now) }
{
    part(bytes, at, bytes.len()).iter().all(|b| class.has(*b))
}

// Whether the bytes from `at` on begin with these; of bytes and an offset, as `span_end`.
pub fn begins(bytes: &[u8], at: usize, with: &[u8]) -> bool
    ensures { result ≡ bytes_eq (take (length with.now) (drop at bytes.now)) with.now }
{
    part(bytes, at, with.len()) == with
}

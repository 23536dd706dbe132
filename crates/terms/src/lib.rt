// What every layer shares: a value with its offset, a place in some bytes, parts of slices, names, lists of few elements, a found entry, and the refusals.
#![tactic(auto)]

ghost use Rattle.std.specs.Prelude.{◌≡◌};
ghost use Rattle.terms.specs.Places.{at_place};
ghost use Rattle.terms.specs.Refusals.{number_of, place_of};

mod faults;
mod few;
mod fews;
mod names;
mod parts;

pub use faults::LineFault;
pub use few::Few;
pub use names::is_name;
pub use parts::part;
use std::error::Error;
use std::fmt;

// A value with the offset where it stands; of a text, with its line.
#[derive(Clone, Copy, PartialEq, Eq, Debug)]
pub struct At<T> {
    pub offset: usize,
    pub value: T,
}

// Where a name stands in some bytes.
#[derive(Clone, Copy, PartialEq, Eq, Debug)]
pub struct Place {
    pub start: usize,
    pub length: usize,
}

impl Place {
    // The bytes at the place, as far as there are any.
    pub fn of(self, bytes: &[u8]) -> &[u8]
        ensures { result.now ≡ at_place bytes.now self }
    {
        part(bytes, self.start, self.length)
    }
}

// An output's entry as it was found: its index, by which its inputs can be asked for, and its mtime.
#[derive(Clone, Copy, PartialEq, Eq, Debug)]
pub struct Found {
    pub index: usize,
    pub mtime: u64,
}

// There is no room for what should be added.
#[derive(Clone, Copy, PartialEq, Eq, Debug)]
pub struct NoRoom;

// Why a call is refused.
#[derive(Clone, Copy, PartialEq, Eq, Debug)]
pub enum Refusal {
    // The power is off, did not return, or failed in the call.
    PowerOff,
    // The power failed in an open, after it had copied the live bytes.
    PowerLost,
    // The capacity is too small for the bytes of the call.
    Full,
    // The log is closed.
    Closed,
    // The log is open already.
    AlreadyOpen,
    // The image is not empty and does not begin with the header.
    NoHeader,
    // The record at this offset is over a limit.
    OverLimit(usize),
    // The copy buffer is shorter than the live bytes, which are so many.
    CopyShort(usize),
    // The name with this index is empty, has more than 120 bytes, or holds a zero.
    NotName(usize),
    // The place with this index is outside the bytes.
    Outside(usize),
    // There are more than 64 inputs.
    TooManyInputs,
    // More than 256 paths would be known.
    TooManyPaths,
    // This line of the manifest is not understood.
    ManifestLine(usize),
    // This line of the manifest names a rule that is not declared above it, or declares one again.
    RuleDeclared(usize),
    // This line of the manifest has an output that is made already, or twice.
    MadeTwice(usize),
    // This line of the manifest or the listing is past a limit.
    PastLimit(usize),
    // This line of the listing is not understood, or its name was listed before.
    ListingLine(usize),
    // The statement in this line is the first on a cycle.
    OnCycle(usize),
    // The caller's memory is too short: this many elements are needed.
    MemoryShort(usize),
}

impl Refusal {
    // A match and no cast: variants that carry a place have no discriminants, and a `From` would not say which of a refusal's two numbers it gives.
    pub fn number(self) -> u8
        ensures { result ≡ number_of self }
    {
        match self {
            Refusal::PowerOff | Refusal::PowerLost => 1,
            Refusal::Full => 2,
            Refusal::Closed => 3,
            Refusal::AlreadyOpen => 4,
            Refusal::NoHeader => 5,
            Refusal::OverLimit(_) => 6,
            Refusal::CopyShort(_) => 7,
            Refusal::NotName(_) => 8,
            Refusal::Outside(_) => 9,
            Refusal::TooManyInputs => 10,
            Refusal::TooManyPaths => 11,
            Refusal::ManifestLine(_) => 14,
            Refusal::RuleDeclared(_) => 15,
            Refusal::MadeTwice(_) => 16,
            Refusal::PastLimit(_) => 17,
            Refusal::ListingLine(_) => 18,
            Refusal::OnCycle(_) => 19,
            Refusal::MemoryShort(_) => 20,
        }
    }

    pub fn place(self) -> usize
        ensures { result ≡ place_of self }
    {
        match self {
            Refusal::PowerLost => 1,
            Refusal::OverLimit(offset) => offset,
            Refusal::CopyShort(length) => length,
            Refusal::NotName(index) | Refusal::Outside(index) => index,
            Refusal::TooManyInputs => 64,
            Refusal::ManifestLine(line)
            | Refusal::RuleDeclared(line)
            | Refusal::MadeTwice(line)
            | Refusal::PastLimit(line)
            | Refusal::ListingLine(line)
            | Refusal::OnCycle(line) => line,
            Refusal::MemoryShort(need) => need,
            _ => 0,
        }
    }
}

impl fmt::Display for Refusal {
    fn fmt<W: fmt::Write>(&self, f: &mut fmt::Formatter<W>) -> fmt::Result {
        f.write_str(match self {
            Refusal::PowerOff => "the power is off or failed",
            Refusal::PowerLost => "the power failed after the live bytes were copied",
            Refusal::Full => "the capacity is too small for the call's bytes",
            Refusal::Closed => "the log is closed",
            Refusal::AlreadyOpen => "the log is open already",
            Refusal::NoHeader => "it does not begin with the header of a deps log, version 4",
            Refusal::OverLimit(_) =>
                "the record there is over a limit: 120 bytes of a name, 256 paths, 64 inputs",
            Refusal::CopyShort(_) => "the copy buffer is shorter than the live bytes",
            Refusal::NotName(_) =>
                "the name is empty, has more than 120 bytes, or holds a zero byte",
            Refusal::Outside(_) => "the place is outside the bytes",
            Refusal::TooManyInputs => "there are more than 64 inputs",
            Refusal::TooManyPaths => "more than 256 paths would be known",
            Refusal::ManifestLine(_) => "the line of the manifest is not understood",
            Refusal::RuleDeclared(_) => "the rule is not declared above, or is declared again",
            Refusal::MadeTwice(_) => "an output is made twice",
            Refusal::PastLimit(_) =>
                "the line is past a limit: 64 rules, 128 statements, 8 outputs, 32 inputs, 512 rows, 120 bytes of a name",
            Refusal::ListingLine(_) =>
                "the line of the listing is not understood, or its name was listed before",
            Refusal::OnCycle(_) => "the statement is on a cycle",
            Refusal::MemoryShort(_) => "the caller's memory is too short",
        })
    }
}

impl Error for Refusal {}

impl fmt::Display for NoRoom {
    fn fmt<W: fmt::Write>(&self, f: &mut fmt::Formatter<W>) -> fmt::Result {
        f.write_str("there is no room")
    }
}

impl Error for NoRoom {}

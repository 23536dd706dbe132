// Why a record is bad.
ghost use Rattle.std.specs.Prelude.{◌≡◌};
ghost use Rattle.image.specs.Reading.{cause_number};

use std::error::Error;
use std::fmt;

#[derive(Clone, Copy, PartialEq, Eq, Debug)]
pub enum Cause {
    // Fewer than 4 bytes remain.
    NoWord = 1,
    // The size exceeds the bytes that remain.
    TooLong = 2,
    // The size is no multiple of 4, or too small.
    BadSize = 3,
    // The checksum does not fit the next id.
    BadChecksum = 4,
    // The name holds a zero, or is known already.
    BadName = 5,
    // An id is not known yet.
    UnknownId = 6,
}

impl Cause {
    pub fn number(self) -> u8
        ensures { result ≡ cause_number self }
    {
        self as u8
    }
}

impl fmt::Display for Cause {
    fn fmt<W: fmt::Write>(&self, f: &mut fmt::Formatter<W>) -> fmt::Result {
        f.write_str(match self {
            Cause::NoWord => "fewer than 4 bytes remain",
            Cause::TooLong => "the size exceeds the bytes that remain",
            Cause::BadSize => "the size is no multiple of 4, or too small",
            Cause::BadChecksum => "the checksum does not fit the next id",
            Cause::BadName => "the name holds a zero byte, or is known already",
            Cause::UnknownId => "an id is not known yet",
        })
    }
}

impl Error for Cause {}

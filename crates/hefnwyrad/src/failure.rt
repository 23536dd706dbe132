// Why what was asked could not be done.
use super::files::LONGEST;
use std::alloc::{AllocError, AllocFailed};
use std::error::Error;
use std::{fmt, io};
use terms::Refusal;

pub(super) const USAGE: &str =
    "usage: hefnwyrad dump LOG                          print each record of a deps log, its entries, and a tail that cannot be read
       hefnwyrad find LOG OUTPUT                   print the mtime and the inputs of an output's entry
       hefnwyrad note LOG OUTPUT MTIME INPUT...    note that an output was made at a time from inputs";

// A call of a log, or of its medium once the log is given up.
#[derive(Clone, Copy, Debug, PartialEq, Eq)]
pub(super) enum Call {
    Open,
    Find,
    Note,
    Sync,
    Recompact,
    Read,
}

impl Call {
    pub(super) fn refused(self, refusal: Refusal) -> Refused {
        Refused {
            call: self,
            refusal,
        }
    }
}

impl fmt::Display for Call {
    fn fmt<W: fmt::Write>(&self, f: &mut fmt::Formatter<W>) -> fmt::Result {
        f.write_str(match self {
            Call::Open => "open",
            Call::Find => "find",
            Call::Note => "note",
            Call::Sync => "sync",
            Call::Recompact => "recompact",
            Call::Read => "read",
        })
    }
}

// A refusal as it is printed.
#[derive(Clone, Copy)]
struct Numbered(Refusal);

impl fmt::Display for Numbered {
    fn fmt<W: fmt::Write>(&self, f: &mut fmt::Formatter<W>) -> fmt::Result {
        let Numbered(refusal) = self;
        write!(
            f,
            "refused {} at {} ({refusal})",
            refusal.number(),
            refusal.place()
        )
    }
}

// A call that was refused, and why.
#[derive(Clone, Copy, Debug, PartialEq, Eq)]
pub(super) struct Refused {
    call: Call,
    refusal: Refusal,
}

impl Error for Refused {}

impl fmt::Display for Refused {
    fn fmt<W: fmt::Write>(&self, f: &mut fmt::Formatter<W>) -> fmt::Result {
        let Refused { call, refusal } = self;
        write!(f, "{call} {}", Numbered(*refusal))
    }
}

#[derive(Debug, Drop)]
pub(super) enum Failure<'a> {
    // The arguments are none that the program takes.
    Usage,
    // No number below 2 to the 64th.
    NoMtime(&'a str),
    // The file has so many bytes.
    TooLarge(&'a str, u64),
    Unreadable(&'a str, io::Error),
    // The file stays, and what was written of a temporary file beside it is of no use.
    Unwritable(&'a str, io::Error, String),
    // The file is no log.
    NoLog(&'a str, Refusal),
    // A call of the log in the file was refused.
    Refused(&'a str, Refused),
    // Printing, or the memory.
    Io(io::Error),
}

impl Error for Failure<'_> {}

impl From<io::Error> for Failure<'_> {
    fn from(error: io::Error) -> Self {
        Failure::Io(error)
    }
}

impl From<AllocError> for Failure<'_> {
    fn from(error: AllocError) -> Self {
        Failure::Io(error.into())
    }
}

impl<T: Drop> From<AllocFailed<T>> for Failure<'_> {
    fn from(_error: AllocFailed<T>) -> Self {
        Failure::Io(AllocError.into())
    }
}

impl fmt::Display for Failure<'_> {
    fn fmt<W: fmt::Write>(&self, f: &mut fmt::Formatter<W>) -> fmt::Result {
        match self {
            Failure::Usage => f.write_str(USAGE),
            Failure::NoMtime(text) => write!(
                f,
                "{text}: is no mtime, a number below 2 to the 64th"
            ),
            Failure::TooLarge(path, len) => write!(
                f,
                "{path}: has {len} bytes, more than the {LONGEST} of a log"
            ),
            Failure::Unreadable(path, error) => write!(f, "{path}: cannot be read: {error}"),
            Failure::Unwritable(path, error, _) => write!(f, "{path}: cannot be replaced: {error}"),
            Failure::NoLog(path, refusal) => write!(f, "{path}: {}", Numbered(*refusal)),
            Failure::Refused(path, refused) => write!(f, "{path}: {refused}"),
            Failure::Io(error) => write!(f, "{error}"),
        }
    }
}

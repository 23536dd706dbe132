// Why a statement is stale.
ghost use Rattle.std.specs.Prelude.{◌≡◌};
ghost use Rattle.planner.specs.Letters.{byte_of};

#[derive(Clone, Copy, PartialEq, Eq, Debug)]
pub enum Letter {
    // An output is not listed.
    Missing = b'M' as isize,
    // The rule keeps deps and there is no entry.
    Lacking = b'L' as isize,
    // The entry's mtime is below the first output's.
    Outdated = b'T' as isize,
    // An input is not listed and no statement makes it.
    Gone = b'G' as isize,
    // An input is stale.
    Spoilt = b'S' as isize,
    // Some input is newer than some output.
    Newer = b'N' as isize,
}

impl Letter {
    pub fn byte(self) -> u8
        ensures { result ≡ byte_of self }
    {
        self as u8
    }
}

// A stale statement: its number, from 0, and why.
#[derive(Clone, Copy, PartialEq, Eq, Debug)]
pub struct PlanLine {
    pub number: usize,
    pub letter: Letter,
}

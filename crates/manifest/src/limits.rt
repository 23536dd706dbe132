// How much a manifest may hold: `LEAST` to `OUTPUTS` outputs of a statement, and names of at most `LONGEST` bytes.
pub(super) const RULES: usize = 64;

pub(super) const STATEMENTS: usize = 128;

pub(super) const LEAST: usize = 1;

pub(super) const OUTPUTS: usize = 8;

pub(super) const INPUTS: usize = 32;

pub(super) const LONGEST: usize = 120;
// The outputs and inputs of all statements.
pub(super) const WORDS: usize = 5120;

// What filling a table from an image found.
use super::cause::Cause;
use terms::At;

#[derive(Clone, Copy, PartialEq, Eq, Debug)]
pub struct Filled {
    // The number of good records.
    pub records: usize,
    // The length of the header and the good records.
    pub length: usize,
    // The first bad record, where there is one.
    pub tail: Option<At<Cause>>,
}

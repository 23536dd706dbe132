// What the reader hands out.
use super::cause::Cause;
use terms::At;

// A deps record: the output's id, its mtime, and the inputs' ids, four bytes each, as they stand in the image.
#[derive(Clone, Copy)]
pub struct Deps<'a> {
    pub output: u32,
    pub mtime: u64,
    pub ids: &'a [u8],
}

// What stands at an offset. A name and ids are parts of the image.
// One of four: the reader answers a plain pair of it and the next offset, in no Option or Result,
// which docs/DECISIONS.md gives as a rule of this project.
#[derive(Clone, Copy)]
pub enum Read<'a> {
    Path(At<&'a [u8]>),
    Deps(At<Deps<'a>>),
    Bad(Cause),
    End,
}

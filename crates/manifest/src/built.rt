// A build line that was read, its words as they stand.
use super::group::Group;
use words::Word;

#[derive(Clone, Copy)]
pub(super) struct BuiltInputs {
    pub(super) plain: Group,
    pub(super) implicit: Group,
    pub(super) order: Group,
}

#[derive(Clone, Copy)]
pub(super) struct Built {
    pub(super) outputs: Group,
    pub(super) rule: Word,
    pub(super) inputs: BuiltInputs,
}

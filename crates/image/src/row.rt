// A known name, and its entry where it has one.
use super::entry::DepsEntry;
use super::name::Name;

#[derive(Clone, Copy)]
pub struct Row {
    pub(super) name: Name,
    pub(super) entry: Option<DepsEntry>,
}

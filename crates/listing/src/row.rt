// A listed file: the place of its name in the listing, and its mtime.
use terms::Place;

#[derive(Clone, Copy)]
pub struct Row {
    pub name: Place,
    pub mtime: u64,
}

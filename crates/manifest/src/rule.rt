// What a manifest is kept as.
use terms::Place;

// A rule, by the place of its name, and whether it keeps deps.
#[derive(Clone, Copy)]
pub struct Rule {
    pub name: Place,
    pub keeps: bool,
}

// A statement: its line, its rule's number, and how many outputs, plain, implicit and order-only inputs it has, whose places stand one behind the other in
// the list of words from `first` on. Numbers, and no lists of its own: the memory is the caller's, and there is no heap.
#[derive(Clone, Copy)]
pub struct Statement {
    pub line: usize,
    pub rule: usize,
    pub first: usize,
    pub outputs: usize,
    pub plain: usize,
    pub implicit: usize,
    pub order: usize,
}

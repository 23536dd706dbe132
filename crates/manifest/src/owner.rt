// What an indented line belongs to, where it belongs to anything.
#[derive(Clone, Copy, PartialEq, Eq, Debug)]
pub enum Owner {
    LastRule,
    LastStatement,
}

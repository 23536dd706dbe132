// A manifest that was read: its text, and the rules, statements and words in it.
use super::rule::{Rule, Statement};
use terms::Place;

#[derive(Clone, Copy)]
pub struct Manifest<'t, 'r, 's, 'w> {
    pub text: &'t [u8],
    pub rules: &'r [Rule],
    pub statements: &'s [Statement],
    pub words: &'w [Place],
}

// What was read of a manifest so far.
ghost use Rattle.manifest.specs.Sound.{Sound};

use super::owner::Owner;
use super::rule::{Rule, Statement};
use lists::GrowList;
use terms::Place;

#[derive(Drop)]
pub(super) struct Reader<'r, 's, 'w> {
    pub(super) rules: GrowList<'r, Rule>,
    pub(super) statements: GrowList<'s, Statement>,
    pub(super) words: GrowList<'w, Place>,
    pub(super) owner: Option<Owner>,
    ghost sound: { Sound rules statements words },
}

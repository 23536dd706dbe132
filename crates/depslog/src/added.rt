// What a note adds to a table.
ghost use Rattle.std.specs.Prelude.{◌≡◌, ◌<◌, ◌≤◌, true};
ghost use Rattle.terms.specs.Few.{items};
ghost use Rattle.terms.specs.Lists.{every};
ghost use Rattle.terms.specs.Names.{is_name};
ghost use Rattle.depslog.specs.Texts.{texts};

use image::DepsEntry;
use terms::Few;

// The names that are not known yet, whose ids go on from `first`, and the output's entry by ids.
#[derive(Clone, Copy)]
pub(super) struct Added<'a> {
    pub(super) first: usize,
    pub(super) names: Few<&'a [u8], 65>,
    pub(super) output: usize,
    pub(super) entry: DepsEntry,
    ghost small: { first ≤ 256 },
    ghost named: { every is_name (texts (items names)) ≡ true },
    ghost short: { output < 512 },
}

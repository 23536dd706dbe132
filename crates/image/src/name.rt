// A name of 1 to 120 bytes, none of them zero.
ghost use Rattle.std.specs.Prelude.{◌≡◌, true};
ghost use Rattle.terms.specs.Few.{items};
ghost use Rattle.terms.specs.Names.{is_name};

use terms::Few;

#[derive(Clone, Copy)]
pub struct Name {
    pub(super) bytes: Few<u8, 120>,
    ghost named: { is_name (items bytes) ≡ true },
}

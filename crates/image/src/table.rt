// The known names and the entries, by id. Its memory is reserved when it is made: nothing later can fail for want of it.
ghost use Rattle.std.specs.Prelude.{◌≡◌, ◌≤◌, true, map, vec_len, vec_capacity};
ghost use Rattle.terms.specs.Lists.{every};
ghost use Rattle.image.specs.Kept.{distinct, fits_entry};
ghost use Rattle.image.specs.View.{name_in, entry_in};

use super::row::Row;

#[derive(Drop)]
pub struct DepsTable {
    pub(super) rows: Vec<Row>,
    ghost roomy: { 256 ≤ vec_capacity rows },
    ghost few: { vec_len rows ≤ 256 },
    ghost apart: { distinct (map name_in rows.items) ≡ true },
    ghost fitting: { every (fits_entry (vec_len rows)) (map entry_in rows.items) ≡ true },
}

// Names as keys of rows.
ghost use Rattle.std.specs.Prelude.{◌≡◌};
ghost use Rattle.std.specs.Str.{bytes_eq};
ghost use Rattle.terms.specs.Places.{at_place};
ghost use Rattle.words.specs.Paths.{path_name};

use super::row::Row;
use lists::Keys;
use words::Path;

// A listing's text, in which the rows' names are places.
#[derive(Clone, Copy)]
pub struct Lines<'a> {
    pub bytes: &'a [u8],
}

impl<'a> Keys<Row, &'a [u8]> for Lines<'a> {
    ghost has = { λ c x k. bytes_eq k.now (at_place c.bytes.now x.name) };

    fn key(&self, x: &Row) -> &'a [u8] {
        x.name.of(self.bytes)
    }
}

impl<'a> Keys<Row, Path<'a>> for Lines<'a> {
    ghost has = { λ c x k. bytes_eq (path_name k) (at_place c.bytes.now x.name) };

    fn key(&self, x: &Row) -> Path<'a> {
        Path::Plain(x.name.of(self.bytes))
    }
}

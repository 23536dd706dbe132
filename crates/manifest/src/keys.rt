// Names as keys of words, and of rules.
ghost use Rattle.std.specs.Prelude.{◌≡◌};
ghost use Rattle.std.specs.Str.{bytes_eq};
ghost use Rattle.words.specs.Spelling.{name_at};
ghost use Rattle.words.specs.Paths.{path_name};

use super::rule::Rule;
use lists::Keys;
use terms::Place;
use words::Path;

// A text whose words are places in it.
#[derive(Clone, Copy)]
pub struct Text<'a> {
    pub bytes: &'a [u8],
}

impl<'a> Keys<Place, Path<'a>> for Text<'a> {
    ghost has = { λ c x k. bytes_eq (path_name k) (name_at c.bytes.now x) };

    fn key(&self, x: &Place) -> Path<'a> {
        Path::Spelled(x.of(self.bytes))
    }
}

impl<'a> Keys<Rule, Path<'a>> for Text<'a> {
    ghost has = { λ c x k. bytes_eq (path_name k) (name_at c.bytes.now x.name) };

    fn key(&self, x: &Rule) -> Path<'a> {
        Path::Spelled(x.name.of(self.bytes))
    }
}

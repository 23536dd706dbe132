// Names as keys: places in some bytes.
ghost use Rattle.std.specs.Prelude.{◌≡◌};
ghost use Rattle.std.specs.Str.{bytes_eq};
ghost use Rattle.terms.specs.Lists.{place_from};
ghost use Rattle.terms.specs.Places.{at_place};

use super::lookup::{Keys, first};
use terms::Place;

// Elements that are places of names in these bytes.
#[derive(Clone, Copy)]
pub struct Places<'a> {
    pub bytes: &'a [u8],
}

impl<'a> Keys<Place, &'a [u8]> for Places<'a> {
    ghost has = { λ c x k. bytes_eq k.now (at_place c.bytes.now x) };

    fn key(&self, x: &Place) -> &'a [u8] {
        x.of(self.bytes)
    }
}

// The index of the first place where this name stands.
pub fn find_name(bytes: &[u8], places: &[Place], name: &[u8]) -> Option<usize>
    ensures { result ≡ place_from 0 (λ x. bytes_eq name.now (at_place bytes.now x)) places.now }
{
    first(&Places { bytes }, places, name)
}

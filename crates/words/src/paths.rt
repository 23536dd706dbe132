// The bytes of a name, plain or spelled as a word, and names compared by their bytes.
ghost use Rattle.std.specs.Prelude.{◌≡◌, refl};
ghost use Rattle.std.specs.Str.{bytes_eq};
ghost use Rattle.std.specs.Ordering.{nat_cmp, on, as_partial_cmp};
ghost use Rattle.std.specs.Cmp.{partial_equiv_from_equiv, on_equiv, on_total, on_po};
ghost use Rattle.std.specs.Cmp.Lexicographic.{slice_cmp, nat_list_eq_equiv, nat_list_cmp_total, texts_po, texts_ties};
ghost use Rattle.std.specs.Iterator.{YieldsFirst, item_count};
ghost use Rattle.words.specs.Paths.{path_name, Splits};

use super::path::Path;
use std::cmp::Ordering;

impl<'a> Path<'a> {
    // The first byte of the name, and the others, as they are spelled.
    fn split_first(self) -> Option<(u8, Path<'a>)>
        ensures { Splits self.entry result }
    {
        match self {
            Path::Plain([byte, rest @ ..]) => Some((*byte, Path::Plain(rest))),
            Path::Spelled([b'$', byte, rest @ ..]) => Some((*byte, Path::Spelled(rest))),
            Path::Plain([]) | Path::Spelled([] | [b'$']) => None,
            Path::Spelled([byte, rest @ ..]) => Some((*byte, Path::Spelled(rest))),
        }
    }
}

// The bytes of a name, one by one.
#[derive(Drop)]
struct Bytes<'a>(Path<'a>);

impl Iterator for Bytes<'_> {
    type Item = u8;

    ghost next_gives = { YieldsFirst (λ s. path_name s.0) };

    ghost remaining = { item_count (λ s. path_name s.0) };

    fn next(&mut self) -> Option<u8> {
        let (byte, rest) = self.0.split_first()?;
        self.0 = rest;
        Some(byte)
    }
}

impl PartialEq for Path<'_> {
    ghost eq = { on path_name bytes_eq };

    ghost laws = { partial_equiv_from_equiv (on_equiv path_name nat_list_eq_equiv) };

    fn eq(&self, other: &Self) -> bool {
        self.cmp(other).is_eq()
    }
}

impl Eq for Path<'_> {
    ghost laws = { on_equiv path_name nat_list_eq_equiv };
}

impl PartialOrd for Path<'_> {
    ghost partial_cmp = { as_partial_cmp (on path_name (slice_cmp nat_cmp)) };

    ghost laws = { on_po path_name texts_po };

    fn partial_cmp(&self, other: &Self) -> Option<Ordering> {
        Some(self.cmp(other))
    }
}

impl Ord for Path<'_> {
    ghost cmp = { on path_name (slice_cmp nat_cmp) };

    ghost total = { on_total path_name nat_list_cmp_total };

    ghost matches_partial_cmp = { λ x y. refl };

    ghost matches_eq = { λ x y. texts_ties (path_name x) (path_name y) };

    fn cmp(&self, other: &Self) -> Ordering {
        Bytes(*self).cmp(Bytes(*other))
    }
}

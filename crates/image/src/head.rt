// The word that a record begins with, taken apart.
ghost use Rattle.std.specs.Prelude.{◌≡◌};
ghost use Rattle.image.specs.Heads.{head_of, is_odd};

#[derive(Clone, Copy)]
pub(super) enum Kind {
    Path,
    Deps,
}

// What kind of record it is, and how many bytes stand behind the word.
#[derive(Clone, Copy)]
pub(super) struct Head {
    pub(super) kind: Kind,
    pub(super) size: usize,
}

impl From<u32> for Head {
    ghost from_gives = { λ word head. head ≡ head_of word };

    fn from(word: u32) -> Head {
        let kind = if word >= 0x8000_0000 {
            Kind::Deps
        } else {
            Kind::Path
        };
        Head {
            kind,
            size: (word % 0x8000_0000) as usize,
        }
    }
}

impl Head {
    // Whether the size is no multiple of 4, or too small.
    pub(super) fn is_odd(self) -> bool
        ensures { result ≡ is_odd self }
    {
        let least = match self.kind {
            Kind::Path => 8,
            Kind::Deps => 12,
        };
        self.size % 4 != 0 || self.size < least
    }
}

// What a name is.
ghost use Rattle.std.specs.Prelude.{◌≡◌};
ghost use Rattle.terms.specs.Names.{is_name};

// Whether some bytes are a name: 1 to 120, none of them zero.
pub fn is_name(bytes: &[u8]) -> bool
    ensures { result ≡ is_name bytes.now }
{
    (1..=120).contains(&bytes.len()) && !bytes.contains(&0)
}

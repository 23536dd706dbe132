// What kind a line is.
ghost use Rattle.std.specs.Prelude.{◌≡◌, length, drop};
ghost use Rattle.manifest.specs.Kinds.{kind_of, Behind};

use super::kind::Kind;
use words::{Class, all_of, begins};

// What the line that stands from `at` on is. It takes the bytes and an offset as `words::span_end` does, and hands them on.
pub fn kind_at(bytes: &[u8], at: usize) -> Kind
    ensures kind { result ≡ kind_of (drop at bytes.now) }
    ensures behind { Behind result at (length bytes.now) }
{
    if all_of(bytes, at, Class::Space) || begins(bytes, at, b"#") || begins(bytes, at, b"default") {
        return Kind::Skipped;
    }
    if begins(bytes, at, b" ") {
        return Kind::Indented;
    }
    if !all_of(bytes, at, Class::Shown) {
        return Kind::Unclear;
    }
    if begins(bytes, at, b"rule ") {
        return Kind::Rule;
    }
    if begins(bytes, at, b"build ") {
        return Kind::Build;
    }
    Kind::Unclear
}

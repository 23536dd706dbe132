// The indented lines of a rule.
ghost use Rattle.std.specs.Prelude.{◌≡◌, ◌≤◌, length, drop};
ghost use Rattle.manifest.specs.Bindings.{binding_of};

use lists::part;
use words::{Class, all_of, begins, span_end};

// Whether the binding that stands from `at` on is `deps = gcc`; none where it is no binding. A bool within: no other binding is told apart from the rest.
// It takes the bytes and an offset as `words::span_end` does, and hands them on.
pub(super) fn binding_at(bytes: &[u8], at: usize) -> Option<bool>
    ensures { result ≡ binding_of (drop at bytes.now) }
{
    let key = span_end(bytes, at, Class::Space);
    let past = span_end(bytes, key, Class::InKey);
    let equals = span_end(bytes, past, Class::Space);
    if !all_of(bytes, at, Class::Shown) {
        return None;
    }
    if past == key {
        return None;
    }
    if !begins(bytes, equals, b"=") {
        return None;
    }
    let value = span_end(bytes, equals + 1, Class::Space);
    let deps = part(bytes, key, past - key) == b"deps".as_slice();
    let gcc = part(bytes, value, bytes.len()) == b"gcc".as_slice();
    Some(deps && gcc)
}

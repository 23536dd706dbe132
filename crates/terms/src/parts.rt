// A part of a slice, wherever it is said to stand.
ghost use Rattle.std.specs.Prelude.{◌≡◌, take, drop};

// At most `count` elements from `start` on: fewer where the slice ends.
pub fn part<T>(xs: &[T], start: usize, count: usize) -> &[T]
    ensures { result.now ≡ take count (drop start xs.now) }
{
    let rest = &xs[start.min(xs.len())..];
    &rest[..count.min(rest.len())]
}

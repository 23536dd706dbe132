// Counting words, up to a mark.
ghost use Rattle.std.specs.Prelude.{◌≡◌, []};
ghost use Rattle.manifest.specs.Building.{following, behind};
ghost use Rattle.manifest.specs.Groups.{rest, group_names, is_mark, PartsInputs, Sums, Gathered};

use super::group::Group;
use super::limits::LONGEST;
use super::words_left::WordsLeft;
use words::Token;

// The words from `at` on, and the mark behind them: of bytes and an offset, since it answers offsets.
pub(super) fn group_at(bytes: &[u8], at: usize) -> Group
    ensures { Gathered bytes.now at result }
{
    let mut words = WordsLeft::of(bytes, at);
    let mut count = 0;
    let mut long = false;
    // A `while let`, and no `for` over `&mut words`: what ended the words is wanted behind it, and what such a borrow gives back was not proved.
    while let Some(word) = words.next() {
        count += 1;
        long = long || word.length > LONGEST;
    }
    Group {
        at,
        count,
        long,
        mark: words.token,
        next: words.next,
    }
}

// No words, with what stands behind others.
fn none_behind(bytes: &[u8], before: Group) -> Group
    ensures sums { Sums bytes.now result }
    ensures none { group_names bytes.now result ≡ [] }
    ensures rest { rest bytes.now result.mark result.next ≡ rest bytes.now before.mark before.next }
{
    Group {
        at: bytes.len(),
        count: 0,
        long: false,
        ..before
    }
}

// The words behind one of the marks that part inputs, none where another mark stands there.
pub(super) fn behind(bytes: &[u8], before: Group, mark: Token) -> Group
    requires { PartsInputs mark }
    ensures sums { Sums bytes.now result }
    ensures names { group_names bytes.now result ≡ following (is_mark mark) (rest bytes.now before.mark before.next) }
    ensures rest { rest bytes.now result.mark result.next ≡ behind (is_mark mark) (rest bytes.now before.mark before.next) }
{
    if before.mark == mark {
        group_at(bytes, before.next)
    } else {
        none_behind(bytes, before)
    }
}

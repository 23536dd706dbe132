// Keeping the places of words.
ghost use Rattle.std.specs.Prelude.{◌≡◌, ◌+◌, ◌≤◌, length, take, drop};
ghost use Rattle.lists.specs.Grown.{items, room};
ghost use Rattle.words.specs.Tokens.{tokens};
ghost use Rattle.manifest.specs.Building.{names_of};
ghost use Rattle.manifest.specs.Stored.{Stored};

use super::words_left::WordsLeft;
use lists::GrowList;
use terms::Place;
use words::Line;

// Adds the places of the words that stand in a line from `at` on, up to a mark.
pub(super) fn store(words: &mut GrowList<Place>, line: Line, at: usize)
    requires { length (items words.old) + length (names_of (tokens (drop at (take line.end line.text.now)))) ≤ room words.old }
    ensures stored { Stored line.entry.text.now (items words.old) (items words.new) (names_of (tokens (drop at (take line.entry.end line.entry.text.now)))) }
    ensures room { room words.new ≡ room words.old }
{
    for word in WordsLeft::of(line.front(), at) {
        words.push(word.place).unwrap();
    }
}

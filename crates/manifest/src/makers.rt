// Looking rules and makers up.
ghost use Rattle.std.specs.Prelude.{◌≡◌, map};
ghost use Rattle.terms.specs.Lists.{is_in, place_from};
ghost use Rattle.words.specs.Paths.{path_name};
ghost use Rattle.words.specs.Spelling.{name_at};
ghost use Rattle.manifest.specs.Books.{rule_number, is_made, maker_of, twice};
ghost use Rattle.manifest.specs.Views.{declaration, making};

use super::keys::Text;
use super::rule::{Rule, Statement};
use lists::{first, part};
use terms::Place;
use words::Path;

// The number of the first rule with this name.
pub fn rule_number(text: &[u8], rules: &[Rule], name: Path) -> Option<usize>
    ensures { result ≡ rule_number (map (declaration text.now) rules.now) (path_name name.entry) }
{
    first(&Text { bytes: text }, rules, name)
}

// Whether a name is among some words.
pub fn is_among(text: &[u8], words: &[Place], name: Path) -> bool
    ensures { result ≡ is_in (path_name name.entry) (map (name_at text.now) words.now) }
{
    first(&Text { bytes: text }, words, name).is_some()
}

// The number of the statement that makes a path. Text, statements and words stand apart, and not in a Manifest: a reader asks it of the
// statements before one that is not added yet, so a Manifest would be made for that question alone.
pub fn maker(text: &[u8], statements: &[Statement], words: &[Place], name: Path) -> Option<usize>
    ensures { result ≡ maker_of (map (making text.now words.now) statements.now) (path_name name.entry) }
{
    statements
        .iter()
        .position(|s| is_among(text, part(words, s.first, s.outputs), name))
}

// Whether one of the outputs is made already, or stands among them twice.
pub(super) fn made_twice(
    text: &[u8],
    statements: &[Statement],
    words: &[Place],
    outputs: &[Place],
) -> bool
    ensures { result ≡ twice (map (making text.now words.now) statements.now) (map (name_at text.now) outputs.now) }
{
    let mut left = outputs;
    // A `while let`, and no `for`: each output is looked for among those behind it, which an iterator over the elements does not hand out.
    while let Some((output, others)) = left.split_first() {
        let name = Path::Spelled(output.of(text));
        if maker(text, statements, words, name).is_some() {
            return true;
        }
        if is_among(text, others, name) {
            return true;
        }
        left = others;
    }
    false
}

// The lines of a text, one by one.
ghost use Rattle.std.specs.Prelude.{◌≡◌, ◌+◌, ◌-◌, length};
ghost use Rattle.std.specs.Iterator.{at_most};
ghost use Rattle.words.specs.Line.{Begins, Advances};

use super::class::{Class, span_end};
use super::line::Line;
use super::text_lines::TextLines;

impl<'t> TextLines<'t> {
    pub fn of(text: &'t [u8]) -> TextLines<'t>
        ensures { Begins text.entry.now result }
    {
        TextLines {
            text,
            at: 0,
            number: 1,
        }
    }
}

impl<'t> Iterator for TextLines<'t> {
    type Item = Line<'t>;

    ghost next_gives = { Advances };

    ghost remaining = { λ s. at_most (length s.text.now + 1 - s.at) };

    fn next(&mut self) -> Option<Line<'t>> {
        if self.at >= self.text.len() {
            return None;
        }
        let end = span_end(self.text, self.at, Class::InLine);
        let line = Line {
            text: self.text,
            at: self.at,
            end,
            number: self.number,
        };
        self.at = end + 1;
        self.number += 1;
        Some(line)
    }
}

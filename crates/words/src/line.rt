// One line of a text.
ghost use Rattle.std.specs.Prelude.{◌≡◌, take};

// The bytes of the text that stand from `at` on and before `end`; `number` counts the lines from 1. What is read in a line has its place in the text.
#[derive(Clone, Copy)]
pub struct Line<'t> {
    pub text: &'t [u8],
    pub at: usize,
    pub end: usize,
    pub number: usize,
}

impl<'t> Line<'t> {
    // The text up to the line's end, in which the line stands from `at` on.
    pub fn front(self) -> &'t [u8]
        ensures { result.now ≡ take self.entry.end self.entry.text.now }
    {
        &self.text[..self.end.min(self.text.len())]
    }

    // The line from another offset on.
    pub fn from(self, at: usize) -> Line<'t>
        ensures { result ≡ record { text = self.entry.text; at = at; end = self.entry.end; number = self.entry.number } }
    {
        Line { at, ..self }
    }
}

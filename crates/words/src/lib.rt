// The words and marks of a line, and names as keys, however they are spelled.
#![tactic(auto)]

mod class;
mod each_line;
mod line;
mod path;
mod paths;
mod spelling;
mod text_lines;
mod token;
mod tokens;

pub use class::{Class, all_of, begins, span_end};
pub use line::Line;
pub use path::Path;
pub use spelling::{Word, word_at};
pub use text_lines::TextLines;
pub use token::Token;
pub use tokens::next_token;

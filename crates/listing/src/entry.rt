// One line of a listing.
ghost use Rattle.std.specs.Prelude.{◌≡◌};
ghost use Rattle.std.specs.Option.{option_map};
ghost use Rattle.words.specs.Line.{line_bytes};
ghost use Rattle.listing.specs.Rows.{row_of};
ghost use Rattle.listing.specs.Shown.{listed};

use super::decimal::number;
use super::row::Row;
use lists::part;
use terms::{Place, is_name};
use words::{Class, Line, begins, span_end};

const EARLIEST: u64 = 1;

// The row that a line says; none where it is not understood.
pub(super) fn row_at(line: Line) -> Option<Row>
    ensures { option_map (listed line.entry.text.now) result ≡ row_of (line_bytes line.entry) }
{
    let bytes = line.front();
    let past = span_end(bytes, line.at, Class::Digit);
    if begins(bytes, line.at, b"0") {
        return None;
    }
    let mtime = number(part(bytes, line.at, past - line.at))?;
    if mtime < EARLIEST {
        return None;
    }
    if !begins(bytes, past, b" ") {
        return None;
    }
    let name = Place {
        start: past + 1,
        length: bytes.len() - past - 1,
    };
    if !is_name(name.of(line.text)) {
        return None;
    }
    Some(Row { name, mtime })
}

// Reading a listing into memory that the caller lends.
ghost use Rattle.std.specs.Prelude.{◌≡◌, ◌≤◌, map, length};
ghost use Rattle.lists.specs.Grown.{items, room};
ghost use Rattle.words.specs.Line.{line_bytes};
ghost use Rattle.listing.specs.Rows.{row_of, row_added, read_listing};
ghost use Rattle.listing.specs.Shown.{listed, listing_outcome, rows_shown};
ghost use Rattle.terms.specs.Faulty.{told};

use super::entry::row_at;
use super::fault::ListingFault;
use super::keys::Lines;
use super::listing::Listing;
use super::row::Row;
use lists::{GrowList, first};
use terms::{At, Refusal};
use words::{Line, TextLines};

// How many rows a listing may have.
const ROWS: usize = 512;

// Adds the row that a line says.
fn add_row(rows: &mut GrowList<Row>, line: Line) -> Result<(), ListingFault>
    requires { 512 ≤ room rows.old }
    ensures room { room rows.new ≡ room rows.old }
    ensures said { told result (map (listed line.entry.text.now) (items rows.new)) ≡ row_added (map (listed line.entry.text.now) (items rows.old)) (row_of (line_bytes line.entry)) }
{
    let row = row_at(line).ok_or(ListingFault::BadLine)?;
    let name = row.name.of(line.text);
    if first(&Lines { bytes: line.text }, rows.as_slice(), name).is_some() {
        return Err(ListingFault::BadLine);
    }
    if rows.len() >= ROWS {
        return Err(ListingFault::PastRows);
    }
    rows.push(row).unwrap();
    Ok(())
}

// What a listing says, or the first refusal: memory too short for 512 rows, then the first line that breaks a rule. Behind the end of what is handed back,
// and after a refusal, the memory is free.
pub fn read_listing<'t, 'r>(text: &'t [u8], rows: &'r mut [Row]) -> Result<Listing<'t, 'r>, Refusal>
    ensures { rows_shown result ≡ listing_outcome (length rows.old) (read_listing text.now) }
{
    if rows.len() < ROWS {
        return Err(Refusal::MemoryShort(ROWS));
    }
    let mut list = GrowList::new(rows);
    for line in TextLines::of(text) {
        add_row(&mut list, line).map_err(|value| At {
            offset: line.number,
            value,
        })?;
    }
    Ok(Listing {
        text,
        rows: list.into_slice(),
    })
}

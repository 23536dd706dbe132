// Looking up the entry of an output.
ghost use Rattle.std.specs.Prelude.{◌≡◌};
ghost use Rattle.image.specs.Learning.{view};
ghost use Rattle.notes.specs.Notes.{entry_of};
ghost use Rattle.notes.specs.Meant.{found, found_says};

use image::DepsTable;
use terms::Found;

// The index and the mtime of an output's entry, where it has one. What stands there says what the output's entry says.
pub fn find(table: &DepsTable, output: &[u8]) -> Option<Found>
    ensures answer { result ≡ found (view table.now) output.now }
    ensures says { found_says (view table.now) result ≡ entry_of (view table.now) output.now }
{
    let index = table.id_of(output)?;
    let entry = table.entry(index)?;
    Some(Found {
        index,
        mtime: entry.mtime(),
    })
}

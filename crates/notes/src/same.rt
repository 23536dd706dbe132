// Whether an entry says already what a note says.
ghost use Rattle.std.specs.Prelude.{◌≡◌, map};
ghost use Rattle.image.specs.Learning.{view};
ghost use Rattle.notes.specs.Notes.{name_of, same_names, unchanged};
ghost use Rattle.notes.specs.Meant.{given_note};

use super::given::Given;
use image::DepsTable;

// The name with an id; of an id that is not known, no bytes.
pub fn name_of(table: &DepsTable, id: usize) -> &[u8]
    ensures { result.now ≡ name_of (view table.now) id }
{
    table.name(id).unwrap_or(&[])
}

// Whether the note's inputs are the names with these ids, in order.
fn same_names(table: &DepsTable, ids: &[u32], note: &Given) -> bool
    ensures { result ≡ same_names (given_note note.now).says.inputs (map (name_of (view table.now)) ids.now) }
{
    note.inputs.len() == ids.len()
        && note.inputs.iter().zip(ids).all(|(place, id)| {
            place.of(note.bytes) == name_of(table, *id as usize)
        })
}

// Whether the output's entry has the same mtime and inputs as the note already.
pub fn is_unchanged(table: &DepsTable, note: &Given) -> bool
    ensures { result ≡ unchanged (view table.now) (given_note note.now) }
{
    let Some(id) = table.id_of(note.output_name()) else {
        return false;
    };
    let Some(entry) = table.entry(id) else {
        return false;
    };
    note.mtime == entry.mtime() && same_names(table, entry.inputs(), note)
}

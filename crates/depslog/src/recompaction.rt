// What a recompaction puts in the place of all live bytes: the header, and each entry as a note would tell it in an empty log.
ghost use Rattle.std.specs.Prelude.{◌≡◌, ◌+◌, ◌<◌, ◌≤◌, true, length, nat_lt, OnOk};
ghost use Rattle.terms.specs.Lists.{every};
ghost use Rattle.medium.specs.State.{all};
ghost use Rattle.image.specs.View.{entry_of};
ghost use Rattle.image.specs.Tables.{bare};
ghost use Rattle.image.specs.Learning.{view};
ghost use Rattle.notes.specs.Notes.{notes_bytes};
ghost use Rattle.notes.specs.Compacting.{entries_of, compact_bytes, compact_table};
ghost use Rattle.depslog.specs.Adding.{Adds};
ghost use Rattle.depslog.specs.Drafting.{DraftedAll, note_at};
ghost use Rattle.depslog.specs.Replacing.{InPlace};

use super::added::Added;
use super::replacing::{Contents, replace};
use super::sink::{Draft, Sink};
use image::{DepsEntry, DepsTable, HEADER};
use medium::{Fault, Medium};
use notes::name_of;

// What the note that tells the entry of the output with an id adds to what `into` knows.
fn add_entry<'a>(
    added: &mut Added<'a>,
    into: &DepsTable,
    from: &'a DepsTable,
    id: usize,
    entry: &DepsEntry,
)
    requires id { id < length (view from.now).names }
    requires ids { every (λ i. nat_lt i (length (view from.now).names)) (entry_of entry.now).inputs ≡ true }
    ensures { Adds (view into.now) (note_at (view from.now) id (entry_of entry.now)) added.new }
{
    added.begin(into, name_of(from, id), entry.mtime());
    for input in entry.inputs() {
        added.extend(into, name_of(from, *input as usize));
    }
}

// How many bytes there are. `into` is used to know which names are told already. An id is what is counted: the note says whose entry it tells.
fn count_entries(from: &DepsTable, into: &mut DepsTable) -> usize
    ensures { result ≡ length (compact_bytes (view from.now)) }
{
    into.clear();
    let mut added = Added::none();
    let mut total = HEADER.len();
    for id in 0..from.path_count() {
        if let Some(entry) = from.entry(id) {
            add_entry(&mut added, into, from, id, &entry);
            total += added.length();
            added.learn(into);
        }
    }
    total
}

// Drafts the notes of all entries, by the outputs' ids, and learns what they tell. The loop is not shared with `count_entries`, which cannot fail and asks for no room:
// a closure for what is done with a note would carry all of this contract. The power and the room are asked, as in `Sink`.
fn draft_entries<M: Medium>(
    medium: &mut M,
    draft: &Draft<M>,
    from: &DepsTable,
    into: &mut DepsTable,
) -> Result<(), Fault>
    requires on { (M.Medium.state medium.old).power ≡ true }
    requires room { length (all (M.Medium.state medium.old).draft) + length (notes_bytes bare (entries_of (view from.now))) ≤ (M.Medium.state medium.old).capacity }
    ensures drafted { DraftedAll (notes_bytes bare (entries_of (view from.now))) (M.Medium.state medium.old) result (M.Medium.state medium.new) }
    ensures known { OnOk result (view into.new ≡ compact_table (view from.now)) }
{
    into.clear();
    let mut added = Added::none();
    for id in 0..from.path_count() {
        if let Some(entry) = from.entry(id) {
            add_entry(&mut added, into, from, id, &entry);
            added.put(draft, medium)?;
            added.learn(into);
        }
    }
    Ok(())
}

// What a table knows, as a recompacted image. Writing it teaches what that image tells.
#[derive(Clone, Copy)]
struct Recompacted<'a> {
    from: &'a DepsTable,
}

impl<M: Medium> Contents<M> for Recompacted<'_> {
    type Known = DepsTable;

    ghost bytes = { λ r. compact_bytes (view r.from.now) };

    ghost taught = { λ r known. view known ≡ compact_table (view r.from.now) };

    fn length(&self, known: &mut DepsTable) -> usize {
        count_entries(self.from, known)
    }

    fn write(&self, medium: &mut M, draft: &Draft<M>, known: &mut DepsTable) -> Result<(), Fault> {
        draft.put(medium, &HEADER)?;
        draft_entries(medium, draft, self.from, known)
    }
}

// Puts the recompacted image of what `from` knows in the place of all live bytes, where it fits. Granted, `into` knows what that image tells.
pub fn recompact<M: Medium>(
    medium: &mut M,
    from: &DepsTable,
    into: &mut DepsTable,
) -> Result<(), Fault>
    ensures medium { InPlace (compact_bytes (view from.now)) (M.Medium.state medium.old) result (M.Medium.state medium.new) }
    ensures known { OnOk result (view into.new ≡ compact_table (view from.now)) }
{
    replace(medium, &Recompacted { from }, into)
}

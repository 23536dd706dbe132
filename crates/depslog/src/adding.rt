// Working out what a note adds to a table, how many bytes that takes, and learning it.
// The table and the new names are handed on apart: `take_in` changes the names, and only reads the table.
ghost use Rattle.std.specs.Prelude.{◌≡◌, ◌+◌, ◌<◌, ◌≤◌, ◌++◌, true, map, length, position};
ghost use Rattle.std.specs.Str.{bytes_eq};
ghost use Rattle.terms.specs.Few.{items};
ghost use Rattle.terms.specs.Lists.{every};
ghost use Rattle.terms.specs.Names.{is_name};
ghost use Rattle.image.specs.Bytes.{path};
ghost use Rattle.image.specs.View.{entry_of};
ghost use Rattle.image.specs.Learning.{view};
ghost use Rattle.image.specs.Laws.{AllWritable};
ghost use Rattle.notes.specs.Notes.{unknown, names_of, id_in};
ghost use Rattle.notes.specs.Meant.{given_note};
ghost use Rattle.depslog.specs.Texts.{texts};
ghost use Rattle.depslog.specs.Adding.{bare_note, names_added, bytes_added, learned_added, Adds, AddsMore};

use super::added::Added;
use image::{DepsEntry, DepsTable, padding_of};
use notes::Given;
use terms::Few;

// Where a name stands among these.
fn place_among(names: &[&[u8]], name: &[u8]) -> Option<usize>
    ensures { result ≡ position (λ n. bytes_eq n.now name.now) names.now }
{
    names.iter().position(|n| *n == name)
}

// Takes a name in, unless it is known or among these; its id, once these are known behind those of the table.
fn take_in<'a>(names: &mut Few<&'a [u8], 65>, table: &DepsTable, name: &'a [u8]) -> usize
    requires { length (items names.old) < 65 }
    ensures names { texts (items names.new) ≡ texts (items names.old) ++ unknown ((view table.now).names ++ texts (items names.old)) name.now }
    ensures count { length (items names.new) ≤ length (items names.old) + 1 }
    ensures id { result ≡ id_in ((view table.now).names ++ texts (items names.new)) name.now }
    ensures small { result < 512 }
{
    if let Some(id) = table.id_of(name) {
        return id;
    }
    if let Some(k) = place_among(names.as_slice(), name) {
        return table.path_count() + k;
    }
    let k = names.as_slice().len();
    names.push(name).unwrap();
    table.path_count() + k
}

impl<'a> Added<'a> {
    // Of no note yet. A recompaction makes one and fills it in for each of its notes: a new one for each would be copied, and it is large.
    pub(super) fn none() -> Added<'a> {
        Added {
            first: 0,
            names: Few::new(&[]),
            output: 0,
            entry: DepsEntry::new(0),
        }
    }

    // Begins with what a note without inputs adds to what a table knows.
    pub(super) fn begin(&mut self, table: &DepsTable, output: &'a [u8], mtime: u64)
        requires { is_name output.now ≡ true }
        ensures adds { Adds (view table.now) (bare_note output.now mtime) self.new }
        ensures count { length (items self.new.names) ≤ 1 }
    {
        self.first = table.path_count();
        self.names.clear();
        self.output = take_in(&mut self.names, table, output);
        self.entry = DepsEntry::new(mtime);
    }

    // The note has one input more. An id is known as soon as its name is taken in, and stays as more are.
    pub(super) fn extend(&mut self, table: &DepsTable, input: &'a [u8])
        requires named { is_name input.now ≡ true }
        requires names { length (items self.old.names) < 65 }
        requires inputs { length (entry_of self.old.entry).inputs < 64 }
        ensures adds { AddsMore (view table.now) input.now self.old self.new }
        ensures count { length (items self.new.names) ≤ length (items self.old.names) + 1 }
    {
        let id = take_in(&mut self.names, table, input);
        self.entry.push(id as u32).unwrap();
    }

    // What a note adds to what a table knows.
    pub(super) fn to(&mut self, table: &DepsTable, note: &Given<'a>)
        requires named { every is_name (names_of (given_note note.now)) ≡ true }
        requires few { length note.now.inputs.now ≤ 64 }
        ensures { Adds (view table.now) (given_note note.now) self.new }
    {
        self.begin(table, note.output.of(note.bytes), note.mtime);
        for place in note.inputs {
            self.extend(table, place.of(note.bytes));
        }
    }

    // How many bytes its records take.
    pub(super) fn length(&self) -> usize
        ensures value { result ≡ length (bytes_added self.now) }
        ensures bound { result ≤ 8592 }
    {
        let mut total = 16 + 4 * self.entry.inputs().len();
        for name in self.names.as_slice() {
            total += 8 + name.len() + padding_of(name.len());
        }
        total
    }

    // The table learns it.
    pub(super) fn learn(&self, table: &mut DepsTable)
        requires { AllWritable (view table.old) (map path (names_added self.now)) }
        ensures { view table.new ≡ learned_added self.now (view table.old) }
    {
        for name in self.names.as_slice() {
            table.learn_path(name);
        }
        table.learn_deps(self.output, &self.entry);
    }
}

// Making a table, asking it, and what it learns from one record.
ghost use Rattle.std.specs.Prelude.{◌≡◌, ◌<◌, true, false, length, IfOk, None, slice_index_or};
ghost use Rattle.std.specs.Option.{option_map};
ghost use Rattle.std.specs.List.{slice_get};
ghost use Rattle.terms.specs.Lists.{is_in, place_in};
ghost use Rattle.image.specs.Tables.{bare};
ghost use Rattle.image.specs.Kept.{Kept};
ghost use Rattle.image.specs.View.{entry_of};
ghost use Rattle.image.specs.Learning.{view, path_learned, takes_deps, deps_learned};

use super::entry::DepsEntry;
use super::name::Name;
use super::row::Row;
use super::table::DepsTable;
use std::alloc::{AllocError, Global};

impl DepsTable {
    // A table that knows nothing, with the memory for all that it may learn.
    pub fn new(heap: Global) -> Result<DepsTable, AllocError>
        ensures { IfOk result (λ t. view t ≡ bare) }
    {
        let rows = Vec::with_capacity(heap, 256)?;
        Ok(DepsTable { rows })
    }

    pub fn clear(&mut self)
        ensures { view self.new ≡ bare }
    {
        self.rows.clear();
    }

    // How many names are known. Every table keeps what `Kept` says.
    pub fn path_count(&self) -> usize
        ensures count { result ≡ length (view self.now).names }
        ensures kept { Kept (view self.now) }
    {
        self.rows.len()
    }

    // The id of a name, where it is known.
    pub fn id_of(&self, name: &[u8]) -> Option<usize>
        ensures { result ≡ place_in name.now (view self.now).names }
    {
        self.rows.iter().position(|row| row.name.as_bytes() == name)
    }

    // The name with an id, where it is known.
    pub fn name(&self, id: usize) -> Option<&[u8]>
        ensures { option_map (λ x. x.now) result ≡ slice_get (view self.now).names id }
    {
        Some(self.rows.get(id)?.name.as_bytes())
    }

    // The entry of the output with an id, where it has one.
    pub fn entry(&self, id: usize) -> Option<DepsEntry>
        ensures { option_map entry_of result ≡ slice_index_or (view self.now).entries id None }
    {
        self.rows.get(id)?.entry
    }

    // Takes these bytes, which are not known, as the next path, where they are a name; whether it did.
    pub(super) fn add_path(&mut self, name: &[u8]) -> bool
        requires unknown { is_in name.now (view self.old).names ≡ false }
        requires room { length (view self.old).names < 256 }
        ensures { (result, view self.new) ≡ path_learned (view self.old) name.now }
    {
        let Some(name) = Name::new(name) else {
            return false;
        };
        self.rows.push_reserved(Row { name, entry: None });
        true
    }

    // Takes an entry as the output's, where all its ids are known.
    pub(super) fn add_deps(&mut self, output: usize, entry: &DepsEntry)
        requires { takes_deps (view self.old) output (entry_of entry.now) ≡ true }
        ensures { (true, view self.new) ≡ deps_learned (view self.old) output (entry_of entry.now) }
    {
        self.rows[output].entry = Some(*entry);
    }

    // Takes these bytes as the next path; false, and nothing changed, where they are no name or known already, or 256 are known.
    // A bool, as a set's `insert` answers whether it took what it was given: no caller tells the reasons apart, and all but one would
    // throw an error away.
    pub fn learn_path(&mut self, name: &[u8]) -> bool
        ensures { (result, view self.new) ≡ path_learned (view self.old) name.now }
    {
        if self.path_count() >= 256 || self.id_of(name).is_some() {
            return false;
        }
        self.add_path(name)
    }

    // Takes an entry as the output's; false, and nothing changed, where an id is not known.
    // A bool, as for a path.
    pub fn learn_deps(&mut self, output: usize, entry: &DepsEntry) -> bool
        ensures { (result, view self.new) ≡ deps_learned (view self.old) output (entry_of entry.now) }
    {
        let count = self.path_count();
        if output >= count || !entry.inputs().iter().all(|id| (*id as usize) < count) {
            return false;
        }
        self.add_deps(output, entry);
        true
    }
}

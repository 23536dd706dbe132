// Making an entry, and what it holds.
ghost use Rattle.std.specs.Prelude.{◌≡◌, ◌≤◌, ⊤, [], length, Ok, Err, if◌then◌else◌, nat_lt};
ghost use Rattle.terms.specs.Lists.{◌▷◌};
ghost use Rattle.image.specs.View.{entry_of};

use super::entry::DepsEntry;
use terms::{Few, NoRoom};

impl DepsEntry {
    // An entry with no inputs yet.
    pub fn new(mtime: u64) -> DepsEntry
        ensures { entry_of result ≡ record { mtime = mtime; inputs = [] } }
    {
        DepsEntry {
            mtime,
            inputs: Few::new(0),
        }
    }

    // One input more; an error, and nothing changed, where there are 64.
    pub fn push(&mut self, id: u32) -> Result<(), NoRoom>
        ensures room { result ≡ (if nat_lt (length (entry_of self.old).inputs) 64 then Ok tt else Err (record {})) }
        ensures after { entry_of self.new ≡ (if nat_lt (length (entry_of self.old).inputs) 64 then (record { mtime = (entry_of self.old).mtime; inputs = (entry_of self.old).inputs ▷ id }) else entry_of self.old) }
    {
        self.inputs.push(id)
    }

    pub fn mtime(&self) -> u64
        ensures { result ≡ (entry_of self.now).mtime }
    {
        self.mtime
    }

    pub fn inputs(&self) -> &[u32]
        ensures ids { result.now ≡ (entry_of self.now).inputs }
        ensures few { length result.now ≤ 64 }
    {
        self.inputs.as_slice()
    }
}

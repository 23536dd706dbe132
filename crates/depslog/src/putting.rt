// Putting the records of a note, each by a call of its own.
ghost use Rattle.std.specs.Prelude.{◌≡◌, ◌+◌, ◌≤◌, true, length};
ghost use Rattle.terms.specs.Names.{is_name};
ghost use Rattle.image.specs.Bytes.{path, deps, record_bytes};
ghost use Rattle.image.specs.View.{entry_of};
ghost use Rattle.depslog.specs.Adding.{bytes_added};

use super::added::Added;
use super::sink::Sink;
use image::{DepsEntry, Name, write_deps, write_path};
use medium::{Fault, Medium};

// The power and the room are asked at each call, as in `Sink`.

// Puts the path record that gives a name this id.
fn put_path<M: Medium, S: Sink<M>>(
    to: &S,
    medium: &mut M,
    id: u32,
    name: &[u8],
) -> Result<(), Fault>
    requires named { is_name name.now ≡ true }
    requires room { length (S.Sink.held (M.Medium.state medium.old)) + length (record_bytes id (path name.now)) ≤ (M.Medium.state medium.old).capacity }
    ensures { S.Sink.puts (record_bytes id (path name.now)) (M.Medium.state medium.old) result (M.Medium.state medium.new) }
{
    let mut record = [0u8; 128];
    let Some(name) = Name::new(name) else {
        unreachable!();
    };
    let Ok(len) = write_path(&mut record, id, &name) else {
        unreachable!();
    };
    to.put(medium, &record[..len])
}

// Puts the deps record that gives the output with this id an entry.
fn put_deps<M: Medium, S: Sink<M>>(
    to: &S,
    medium: &mut M,
    output: u32,
    entry: &DepsEntry,
) -> Result<(), Fault>
    requires { length (S.Sink.held (M.Medium.state medium.old)) + length (record_bytes 0 (deps output (entry_of entry.now).mtime (entry_of entry.now).inputs)) ≤ (M.Medium.state medium.old).capacity }
    ensures { S.Sink.puts (record_bytes 0 (deps output (entry_of entry.now).mtime (entry_of entry.now).inputs)) (M.Medium.state medium.old) result (M.Medium.state medium.new) }
{
    let mut record = [0u8; 272];
    let Ok(len) = write_deps(&mut record, output, entry) else {
        unreachable!();
    };
    to.put(medium, &record[..len])
}

impl Added<'_> {
    // Puts the path record of each new name, and then the deps record.
    pub(super) fn put<M: Medium, S: Sink<M>>(&self, to: &S, medium: &mut M) -> Result<(), Fault>
        requires on { (M.Medium.state medium.old).power ≡ true }
        requires room { length (S.Sink.held (M.Medium.state medium.old)) + length (bytes_added self.now) ≤ (M.Medium.state medium.old).capacity }
        ensures { S.Sink.puts (bytes_added self.now) (M.Medium.state medium.old) result (M.Medium.state medium.new) }
    {
        for (k, name) in self.names.as_slice().iter().enumerate() {
            put_path(to, medium, (self.first + k) as u32, name)?;
        }
        put_deps(to, medium, self.output as u32, &self.entry)
    }
}

// Noting what an output was made from.
ghost use Rattle.depslog.specs.State.{state_of};
ghost use Rattle.depslog.specs.Adding.{bytes_added};
ghost use Rattle.depslog.specs.NoteCall.{NotedLog, WrittenOn};

use super::added::Added;
use super::log::Log;
use super::names::check_names;
use super::sink::Live;
use medium::{Fault, Medium, fits};
use notes::{Given, is_unchanged};
use terms::Refusal;

// Appends what a note adds, where there is room for all of it.
fn append<M: Medium>(medium: &mut M, added: &Added) -> Result<(), Fault>
    ensures { WrittenOn (bytes_added added.now) (M.Medium.state medium.old) result (M.Medium.state medium.new) }
{
    let used = medium.length()?;
    if !fits(used, added.length(), medium.capacity()) {
        return Err(Fault::Full);
    }
    added.put(&Live, medium)
}

impl<M: Medium> Log<M> {
    // Notes that an output was made at a time from inputs.
    pub fn note(&mut self, note: &Given) -> Result<(), Refusal>
        ensures { NotedLog note.now.bytes.now note.now.output note.now.mtime note.now.inputs.now (state_of M.Medium.state self.old) result (state_of M.Medium.state self.new) }
    {
        if !self.open {
            return Err(Refusal::Closed);
        }
        if note.inputs.len() > 64 {
            return Err(Refusal::TooManyInputs);
        }
        check_names(note)?;
        if is_unchanged(&self.table, note) {
            return Ok(());
        }
        let mut added = Added::none();
        added.to(&self.table, note);
        if added.first + added.names.as_slice().len() > 256 {
            return Err(Refusal::TooManyPaths);
        }
        match append(&mut self.medium, &added) {
            Ok(()) => {
                added.learn(&mut self.table);
                Ok(())
            }
            Err(fault) => Err(self.refused(fault)),
        }
    }
}

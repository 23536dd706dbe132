// Recompacting a log.
ghost use Rattle.std.specs.Prelude.{◌≡◌};
ghost use Rattle.depslog.specs.State.{state_of};
ghost use Rattle.depslog.specs.Recompacting.{RecompactedLog};

use super::log::Log;
use super::recompaction::recompact;
use medium::Medium;
use std::mem::swap;
use terms::Refusal;

impl<M: Medium> Log<M> {
    // Replaces the image by one that has each entry once and nothing else.
    pub fn recompact(&mut self) -> Result<(), Refusal>
        ensures { RecompactedLog (state_of M.Medium.state self.old) result (state_of M.Medium.state self.new) }
    {
        if !self.open {
            return Err(Refusal::Closed);
        }
        match recompact(&mut self.medium, &self.table, &mut self.spare) {
            Ok(()) => {
                swap(&mut self.table, &mut self.spare);
                Ok(())
            }
            Err(fault) => Err(self.refused(fault)),
        }
    }
}

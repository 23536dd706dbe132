// Making a log, and the calls that write nothing of their own.
ghost use Rattle.std.specs.Prelude.{◌≡◌, not, ◌&&◌, MatchResult};
ghost use Rattle.medium.specs.Refusals.{refusal_of, is_off};
ghost use Rattle.std.specs.Option.{option_map};
ghost use Rattle.depslog.specs.State.{state_of, closed_on};
ghost use Rattle.depslog.specs.Calls.{SyncedLog, FailedLog, find_answer, input_name};

use super::log::Log;
use image::DepsTable;
use medium::{Fault, Medium};
use notes::find;
use std::alloc::{AllocFailed, Global};
use terms::{Found, Refusal, is_name};

impl<M: Medium> Log<M> {
    // A closed log on a medium, with all the memory that it will ever need; the medium comes back where there is none.
    pub fn new(heap: Global, medium: M) -> Result<Log<M>, AllocFailed<M>>
        ensures { MatchResult result (λ l. state_of M.Medium.state l ≡ closed_on (M.Medium.state medium)) (λ e. e.value ≡ medium) }
    {
        let Ok(table) = DepsTable::new(heap) else {
            return Err(AllocFailed { value: medium });
        };
        let Ok(spare) = DepsTable::new(heap) else {
            return Err(AllocFailed { value: medium });
        };
        Ok(Log {
            medium,
            table,
            spare,
            open: false,
        })
    }

    // The medium of a log that is given up.
    pub fn into_medium(self) -> M
        ensures { M.Medium.state result ≡ (state_of M.Medium.state self).medium }
    {
        let Log {
            medium,
            table: _,
            spare: _,
            open: _,
        } = self;
        medium
    }

    // Makes all live bytes durable.
    pub fn sync(&mut self) -> Result<(), Refusal>
        ensures { SyncedLog (state_of M.Medium.state self.old) result (state_of M.Medium.state self.new) }
    {
        if !self.open {
            return Err(Refusal::Closed);
        }
        match self.medium.sync() {
            Ok(()) => Ok(()),
            Err(fault) => Err(self.refused(fault)),
        }
    }

    // The refusal for what the medium says; a failure of the power closes the log.
    pub(super) fn refused(&mut self, fault: Fault) -> Refusal
        ensures refusal { result ≡ refusal_of fault }
        ensures opened { self.new.open ≡ (self.old.open && not (is_off fault)) }
        ensures medium { self.new.medium ≡ self.old.medium }
        ensures table { self.new.table ≡ self.old.table }
    {
        if fault == Fault::Off {
            self.open = false;
        }
        fault.into()
    }

    // Fails the medium's power, and closes the log.
    pub fn power_failure(&mut self)
        ensures { FailedLog (state_of M.Medium.state self.old) (state_of M.Medium.state self.new) }
    {
        self.medium.power_failure();
        self.open = false;
    }

    // The entry of an output, where it has one.
    pub fn find(&self, output: &[u8]) -> Result<Option<Found>, Refusal>
        ensures { result ≡ find_answer (state_of M.Medium.state self.now) output.now }
    {
        if !self.open {
            return Err(Refusal::Closed);
        }
        if !is_name(output) {
            return Err(Refusal::NotName(0));
        }
        Ok(find(&self.table, output))
    }

    // The name of input k of the entry with an index, where there is such an input. Asked one by one: a list of them would
    // need memory in the log, and an iterator over them would keep it borrowed, where a found entry is a plain value.
    pub fn input(&self, index: usize, k: usize) -> Option<&[u8]>
        ensures { option_map (λ x. x.now) result ≡ input_name (state_of M.Medium.state self.now).table index k }
    {
        if !self.open {
            return None;
        }
        let entry = self.table.entry(index)?;
        let id = entry.inputs().get(k)?;
        self.table.name(*id as usize)
    }
}

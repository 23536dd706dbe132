// Opening a log.
ghost use Rattle.std.specs.Prelude.{◌≡◌, true};
ghost use Rattle.image.specs.Scans.{scanned};
ghost use Rattle.depslog.specs.State.{state_of};
ghost use Rattle.depslog.specs.Calls.{OpenedLog};
ghost use Rattle.depslog.specs.Opening.{CopiedLive, lost_by, PutInPlace, MendedLive};

use super::log::Log;
use super::opened::Opened;
use super::replacing::{Bytes, replace};
use image::HEADER;
use medium::{Fault, Medium};
use terms::Refusal;

// Returns the power, and copies the live bytes to the front of the buffer; how many they are.
fn copy_live<M: Medium>(medium: &mut M, copy: &mut [u8]) -> Result<usize, Refusal>
    ensures { CopiedLive (M.Medium.state medium.old) copy.old result (M.Medium.state medium.new) copy.new }
{
    medium.power_return()?;
    let len = medium.length()?;
    if copy.len() < len {
        return Err(Refusal::CopyShort(len));
    }
    medium.read(0, copy)?;
    Ok(len)
}

// The refusal for a medium's fault once the live bytes are copied.
fn lost(fault: Fault) -> Refusal
    ensures { result ≡ lost_by fault }
{
    match fault {
        Fault::Off => Refusal::PowerLost,
        Fault::Full => Refusal::Full,
    }
}

// Puts these bytes in the place of the live ones.
fn put_in_place<M: Medium>(medium: &mut M, bytes: &[u8]) -> Result<(), Refusal>
    ensures { PutInPlace bytes.now (M.Medium.state medium.old) result (M.Medium.state medium.new) }
{
    replace(medium, &Bytes { bytes }, &mut ()).map_err(lost)
}

// Makes the good bytes, which are so many, all the live ones, and durable.
fn mend<M: Medium>(medium: &mut M, live: &[u8], good: usize) -> Result<(), Refusal>
    requires { good ≡ (scanned live.now).past }
    ensures { MendedLive live.now (M.Medium.state medium.old) result (M.Medium.state medium.new) }
{
    if live.is_empty() {
        put_in_place(medium, &HEADER)
    } else if good < live.len() {
        put_in_place(medium, &live[..good])
    } else {
        medium.sync().map_err(lost)
    }
}

impl<M: Medium> Log<M> {
    // Returns the power, reads the live bytes through the copy buffer, and mends them where a tail cannot be read.
    pub fn open(&mut self, copy: &mut [u8]) -> Result<Opened, Refusal>
        ensures { OpenedLog (state_of M.Medium.state self.old) copy.old result (state_of M.Medium.state self.new) copy.new }
    {
        if self.open {
            return Err(Refusal::AlreadyOpen);
        }
        let len = copy_live(&mut self.medium, copy)?;
        let live = &copy[0..len];
        let filled = self.table.fill(live)?;
        mend(&mut self.medium, live, filled.length)?;
        self.open = true;
        Ok(Opened {
            records: filled.records,
            tail: filled.tail,
        })
    }
}

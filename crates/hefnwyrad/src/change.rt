// Changing a log that lies in a file.
use super::failure::{Call, Failure, Refused};
use super::files::{LONGEST, LogFile};
use super::opening::Task;
use depslog::Log;
use medium::Medium;
use std::io;

// A change of an open log.
pub(super) trait Change {
    fn make<M: Medium>(&self, log: &mut Log<M>) -> Result<(), Refused>;
}

// How many bytes a log had, and how many it has now.
#[derive(Clone, Copy)]
pub(super) struct Sizes {
    pub(super) before: usize,
    pub(super) after: usize,
}

// The live bytes of a medium, in an area of so many.
fn live_bytes<M: Medium>(medium: &M, mut bytes: Vec<u8>) -> Result<Vec<u8>, Refused> {
    let count = medium
        .read(0, &mut bytes)
        .map_err(|fault| Call::Read.refused(fault.into()))?;
    bytes.truncate(count);
    Ok(bytes)
}

// A change, and then the live bytes.
#[derive(Clone, Copy)]
struct Changing<'c, C> {
    change: &'c C,
}

impl<'a, C: Change> Task<'a> for Changing<'_, C> {
    type Outcome = Vec<u8>;

    const FATE: &'static str = " is dropped";

    fn run<M: Medium + Drop>(
        &self,
        file: LogFile<'a>,
        mut log: Log<M>,
    ) -> Result<Vec<u8>, Failure<'a>> {
        self.change
            .make(&mut log)
            .map_err(|refused| file.refused(refused))?;
        let medium = log.into_medium();
        let bytes = vec![in file.rt.alloc(); 0u8; LONGEST]?;
        live_bytes(&medium, bytes).map_err(|refused| file.refused(refused))
    }
}

impl<'a> LogFile<'a> {
    // Makes a change of the log of these bytes. The file stays as it is where the change is refused or leaves the bytes as they were.
    pub(super) fn change<C: Change>(self, image: &[u8], change: &C) -> Result<Sizes, Failure<'a>> {
        let bytes = self.on_bench(image, &Changing { change })?;
        if bytes.as_slice() != image {
            self.replace(&bytes)?;
        }
        Ok(Sizes {
            before: image.len(),
            after: bytes.len(),
        })
    }
}

// Recompacting a log that lies in a file.
use super::change::{Change, Sizes};
use super::failure::{Call, Failure, Refused};
use super::files::LogFile;
use depslog::Log;
use medium::Medium;

#[derive(Clone, Copy)]
struct Recompaction;

impl Change for Recompaction {
    fn make<M: Medium>(&self, log: &mut Log<M>) -> Result<(), Refused> {
        log.recompact()
            .map_err(|refusal| Call::Recompact.refused(refusal))
    }
}

impl<'a> LogFile<'a> {
    // Recompacts the log.
    pub(super) fn recompact(self) -> Result<(), Failure<'a>> {
        let image = self.read_or_none()?;
        let Sizes { before, after } = self.change(&image, &Recompaction)?;
        println!(self.rt; "recompact: done, {before} bytes before and {after} now")?;
        Ok(())
    }
}

// Opening a log that lies in a file, on a medium.
use super::failure::{Call, Failure, Refused};
use super::files::{LONGEST, LogFile};
use depslog::Log;
use image::Cause;
use media::{Bench, Plan};
use medium::Medium;
use std::io;
use terms::At;

// What is done with a log that is open.
pub(super) trait Task<'a> {
    type Outcome: Drop;

    // What becomes of a tail that cannot be read, as it is printed.
    const FATE: &'static str;

    fn run<M: Medium + Drop>(
        &self,
        file: LogFile<'a>,
        log: Log<M>,
    ) -> Result<Self::Outcome, Failure<'a>>;
}

// Where a log's tail cannot be read, says where it begins, what becomes of it, and why.
pub(super) fn print_tail(rt: &HostRuntime, tail: Option<At<Cause>>, fate: &str) -> io::Result<()> {
    if let Some(
        At {
            offset,
            value: cause,
        },
    ) = tail
    {
        let number = cause.number();
        println!(rt; "tail at {offset}{fate}, cause {number}: {cause}")?;
    }
    Ok(())
}

// The bytes of a log with room behind them, as the live area of a medium.
fn with_room(rt: &HostRuntime, image: &[u8]) -> io::Result<Vec<u8>> {
    let mut live = vec![in rt.alloc(); 0u8; LONGEST]?;
    let count = image.len().min(live.len());
    live[..count].copy_from_slice(&image[..count]);
    Ok(live)
}

impl<'a> LogFile<'a> {
    // Opens the log, and says what becomes of a tail. The copy buffer is let go before a task needs memory of its own.
    fn open<M: Medium>(self, log: &mut Log<M>, fate: &str) -> Result<(), Failure<'a>> {
        let mut copy = vec![in self.rt.alloc(); 0u8; LONGEST]?;
        let opened = log
            .open(&mut copy)
            .map_err(|refusal| self.refused(Call::Open.refused(refusal)))?;
        print_tail(self.rt, opened.tail, fate)?;
        Ok(())
    }

    // Opens the log on a medium, and does the task.
    fn on_medium<M: Medium + Drop, T: Task<'a>>(
        self,
        medium: M,
        task: &T,
    ) -> Result<T::Outcome, Failure<'a>> {
        let mut log = Log::new(self.rt.alloc(), medium)?;
        self.open(&mut log, T::FATE)?;
        task.run(self, log)
    }

    // Opens the log of these bytes on a bench, and does the task.
    pub(super) fn on_bench<T: Task<'a>>(
        self,
        image: &[u8],
        task: &T,
    ) -> Result<T::Outcome, Failure<'a>> {
        let mut live = with_room(self.rt, image)?;
        let mut draft = vec![in self.rt.alloc(); 0u8; LONGEST]?;
        let bench = Bench::new(&mut live, &mut draft, image.len(), Plan::NEVER);
        self.on_medium(bench, task)
    }

    pub(super) fn refused(self, refused: Refused) -> Failure<'a> {
        Failure::Refused(self.path, refused)
    }
}

// Reading a log from a file, and replacing the file.
use super::failure::Failure;
use std::fs::File;
use std::io::{ErrorKind, Write};
use std::{fs, io};

// The most bytes of a log: the capacity of the medium that it is read into.
pub(super) const LONGEST: usize = 65_536;

// A log that lies in a file, and what the file is reached by.
#[derive(Clone, Copy)]
pub(super) struct LogFile<'a> {
    pub(super) rt: &'a HostRuntime,
    pub(super) path: &'a str,
}

impl<'a> LogFile<'a> {
    // The bytes of the file.
    pub(super) fn read(self) -> Result<Vec<u8>, Failure<'a>> {
        let about = fs::metadata(self.rt, self.path).map_err(|e| Failure::Unreadable(
            self.path, e,
        ))?;
        if about.len() > LONGEST as u64 {
            return Err(Failure::TooLarge(self.path, about.len()));
        }
        fs::read(self.rt, self.path).map_err(|e| Failure::Unreadable(self.path, e))
    }

    // The bytes of the file; a missing file has none.
    pub(super) fn read_or_none(self) -> Result<Vec<u8>, Failure<'a>> {
        match self.read() {
            Err(Failure::Unreadable(_, e)) if e.kind() == ErrorKind::NotFound => Ok(Vec::new(
                self.rt.alloc(),
            )),
            read => read,
        }
    }

    // Replaces the log: the bytes go to a temporary file beside it, which is synced and renamed over it. Where that cannot be done, the log stays as it is, and the
    // temporary file is named in the failure.
    pub(super) fn replace(self, bytes: &[u8]) -> Result<(), Failure<'a>> {
        let draft = format!(in self.rt.alloc(); "{}.draft", self.path)?;
        let done = write_synced(self.rt, draft.as_str(), bytes).and_then(|()| fs::rename(
            self.rt,
            draft.as_str(),
            self.path,
        ));
        done.map_err(|e| Failure::Unwritable(self.path, e, draft))
    }
}

fn write_synced(rt: &HostRuntime, path: &str, bytes: &[u8]) -> io::Result<()> {
    let mut file = File::create(rt, path)?;
    file.write_all(bytes)?;
    file.sync_all()
}

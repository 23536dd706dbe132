// Noting in a log that lies in a file.
use super::change::Change;
use super::failure::{Call, Failure, Refused};
use super::files::LogFile;
use super::shown::Shown;
use depslog::Log;
use medium::Medium;
use notes::Given;
use std::io;
use terms::Place;

// A note, and then a sync.
#[derive(Clone, Copy)]
struct Noting<'a> {
    note: Given<'a>,
}

impl Change for Noting<'_> {
    fn make<M: Medium>(&self, log: &mut Log<M>) -> Result<(), Refused> {
        log.note(&self.note)
            .map_err(|refusal| Call::Note.refused(refusal))?;
        log.sync().map_err(|refusal| Call::Sync.refused(refusal))
    }
}

// Puts a name behind the others, and answers its place.
fn put(bytes: &mut Vec<u8>, name: &str) -> io::Result<Place> {
    let start = bytes.len();
    bytes.extend_from_slice(name.as_bytes())?;
    Ok(Place {
        start,
        length: name.len(),
    })
}

impl<'a> LogFile<'a> {
    // Notes in the log.
    pub(super) fn note(
        self,
        output: &str,
        mtime: &'a str,
        inputs: &[String],
    ) -> Result<(), Failure<'a>> {
        let Ok(time) = mtime.parse::<u64>() else {
            return Err(Failure::NoMtime(mtime));
        };
        let image = self.read_or_none()?;
        let mut bytes = Vec::new(self.rt.alloc());
        let place = put(&mut bytes, output)?;
        let mut places = Vec::new(self.rt.alloc());
        for input in inputs {
            places.push(put(&mut bytes, input.as_str())?)?;
        }
        let note = Given {
            bytes: &bytes,
            output: place,
            mtime: time,
            inputs: &places,
        };
        self.change(&image, &Noting { note })?;
        println!(self.rt; "note {}: noted", Shown(output.as_bytes()))?;
        Ok(())
    }
}

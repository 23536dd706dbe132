// Finding an output's entry in a log that lies in a file.
use super::failure::{Call, Failure};
use super::files::LogFile;
use super::opening::Task;
use super::shown::Shown;
use depslog::Log;
use medium::Medium;
use std::io;
use terms::Found;

// The most inputs of an entry.
const MOST: usize = 64;

fn print_found<M: Medium>(
    rt: &HostRuntime,
    log: &Log<M>,
    output: &[u8],
    found: Option<Found>,
) -> io::Result<()> {
    let Some(found) = found else {
        return println!(rt; "find {}: none", Shown(output));
    };
    print!(rt; "find {}: {}", Shown(output), found.mtime)?;
    for name in (0..MOST).map_while(|k| log.input(found.index, k)) {
        print!(rt; " {}", Shown(name))?;
    }
    println!(rt; "")
}

// Printing an output's entry.
#[derive(Clone, Copy)]
struct Finding<'o> {
    output: &'o [u8],
}

impl<'a> Task<'a> for Finding<'_> {
    type Outcome = ();

    const FATE: &'static str = " would be dropped";

    fn run<M: Medium + Drop>(&self, file: LogFile<'a>, log: Log<M>) -> Result<(), Failure<'a>> {
        let found = log
            .find(self.output)
            .map_err(|refusal| file.refused(Call::Find.refused(refusal)))?;
        print_found(file.rt, &log, self.output, found)?;
        Ok(())
    }
}

impl<'a> LogFile<'a> {
    // Prints an output's entry. The file stays as it is.
    pub(super) fn find(self, output: &str) -> Result<(), Failure<'a>> {
        let image = self.read_or_none()?;
        self.on_bench(
            &image,
            &Finding {
                output: output.as_bytes(),
            },
        )
    }
}

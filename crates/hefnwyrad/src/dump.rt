// Printing what a deps log holds. The runtime and the table are handed on one by one: some functions change the table and others only read it, so
// that a value of both would be of two types.
use super::failure::Failure;
use super::files::LogFile;
use super::opening::print_tail;
use super::shown::Shown;
use image::{Deps, DepsEntry, DepsTable, Filled, Read, read_record};
use std::io;
use terms::At;

fn print_name(rt: &HostRuntime, table: &DepsTable, id: usize) -> io::Result<()> {
    match table.name(id) {
        Some(name) => print!(rt; " {}", Shown(name)),
        None => print!(rt; " ?{id}"),
    }
}

// The output, the mtime and the inputs of an entry, after what the line begins with.
fn print_entry(
    rt: &HostRuntime,
    table: &DepsTable,
    output: usize,
    entry: &DepsEntry,
) -> io::Result<()> {
    print_name(rt, table, output)?;
    print!(rt; " {}:", entry.mtime())?;
    for id in entry.inputs() {
        print_name(rt, table, *id as usize)?;
    }
    println!(rt; "")
}

fn print_path(rt: &HostRuntime, table: &mut DepsTable, path: At<&[u8]>) -> io::Result<()> {
    let id = table.path_count();
    let offset = path.offset;
    println!(rt; "{offset} path {id} {}", Shown(path.value))?;
    table.learn_path(path.value);
    Ok(())
}

fn print_deps(rt: &HostRuntime, table: &mut DepsTable, deps: At<Deps>) -> io::Result<()> {
    let offset = deps.offset;
    let output = deps.value.output as usize;
    if let Some(entry) = deps.value.entry() {
        print!(rt; "{offset} deps")?;
        print_entry(rt, table, output, &entry)?;
        table.learn_deps(output, &entry);
    }
    Ok(())
}

// Each good record with its offset. `at` is stepped by hand: the table learns from a record before the next is read, so an iterator
// that borrows the table to read the records does not live across the loop.
fn print_records(rt: &HostRuntime, image: &[u8], records: usize) -> io::Result<()> {
    let mut table = DepsTable::new(rt.alloc())?;
    let mut at = 16;
    for _ in 0..records {
        let (read, next) = read_record(image, at, &table);
        match read {
            Read::Path(path) => print_path(rt, &mut table, path)?,
            Read::Deps(deps) => print_deps(rt, &mut table, deps)?,
            Read::Bad(_) | Read::End => break,
        }
        at = next;
    }
    Ok(())
}

// Each entry, by the output's id, and how many there are. The table answers by id, and the id is what is printed by its name.
fn print_entries(rt: &HostRuntime, table: &DepsTable) -> io::Result<usize> {
    let mut count = 0usize;
    for id in 0..table.path_count() {
        if let Some(entry) = table.entry(id) {
            print!(rt; "entry")?;
            print_entry(rt, table, id, &entry)?;
            count = count.saturating_add(1);
        }
    }
    Ok(count)
}

fn print_sum(rt: &HostRuntime, filled: Filled, entries: usize) -> io::Result<()> {
    let records = filled.records;
    println!(rt; "{records} records, {entries} entries")?;
    print_tail(rt, filled.tail, "")
}

impl<'a> LogFile<'a> {
    // Prints the log.
    pub(super) fn dump(self) -> Result<(), Failure<'a>> {
        let image = self.read()?;
        let mut table = DepsTable::new(self.rt.alloc())?;
        let filled = table
            .fill(&image)
            .map_err(|refusal| Failure::NoLog(self.path, refusal))?;
        print_records(self.rt, &image, filled.records)?;
        let entries = print_entries(self.rt, &table)?;
        print_sum(self.rt, filled, entries)?;
        Ok(())
    }
}

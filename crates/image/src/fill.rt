// Filling a table from an image.
ghost use Rattle.std.specs.Prelude.{◌≡◌, ◌≤◌, true, false, not, ◌∷◌, length, if◌then◌else◌, Some, None, nat_le};
ghost use Rattle.std.specs.Option.{option_map};
ghost use Rattle.terms.specs.Lists.{every, is_in};
ghost use Rattle.terms.specs.Names.{holds_zero};
ghost use Rattle.image.specs.Bytes.{path, deps};
ghost use Rattle.image.specs.Reading.{is_known};
ghost use Rattle.image.specs.Tables.{bare, learn};
ghost use Rattle.image.specs.Kept.{Kept};
ghost use Rattle.image.specs.Scans.{is_over, scan, fill_by, filled};
ghost use Rattle.image.specs.View.{entry_of};
ghost use Rattle.image.specs.Learning.{view};
ghost use Rattle.image.specs.Shown.{ids_of};
ghost use Rattle.image.specs.Laws.{FillsWritten};

use super::entry::DepsEntry;
use super::filled::Filled;
use super::name::Name;
use super::reader::read_record;
use super::records::{Deps, Read};
use super::table::DepsTable;
use super::writer::HEADER;
use terms::{At, Refusal};

impl<'a> Deps<'a> {
    // The record's mtime and ids as an entry, where it has at most 64 inputs.
    pub fn entry(&self) -> Option<DepsEntry>
        ensures { option_map entry_of result ≡ (if nat_le (length (ids_of self.now)) 64 then Some (record { mtime = self.now.mtime; inputs = ids_of self.now }) else None) }
    {
        let (words, _) = self.ids.as_chunks::<4>();
        if words.len() > 64 {
            return None;
        }
        let mut gathered = DepsEntry::new(self.mtime);
        for id in words {
            gathered.push(u32::from_le_bytes(*id)).unwrap();
        }
        Some(gathered)
    }
}

impl DepsTable {
    // Learns a name that was read, and so is not known; false, and nothing changed, where it is over a limit.
    // A bool, as `learn_path` and `learn_deps` answer: the caller takes them alike.
    fn take_path(&mut self, name: &[u8]) -> bool
        requires some { 1 ≤ length name.now }
        requires clear { holds_zero name.now ≡ false }
        requires unknown { is_in name.now (view self.old).names ≡ false }
        ensures limit { result ≡ not (is_over (length (view self.old).names) (path name.now)) }
        ensures after { view self.new ≡ (if result then learn (view self.old) (path name.now) else view self.old) }
    {
        if self.path_count() >= 256 {
            return false;
        }
        self.add_path(name)
    }

    // Learns a deps record that was read, and so has known ids; false, and nothing changed, where it is over a limit.
    fn take_deps(&mut self, read: Deps) -> bool
        requires { every (is_known (view self.old).names) (read.output ∷ ids_of read) ≡ true }
        ensures limit { result ≡ not (is_over (length (view self.old).names) (deps read.entry.output read.entry.mtime (ids_of read.entry))) }
        ensures after { view self.new ≡ (if result then learn (view self.old) (deps read.entry.output read.entry.mtime (ids_of read.entry)) else view self.old) }
    {
        let Some(entry) = read.entry() else {
            return false;
        };
        self.add_deps(read.output as usize, &entry);
        true
    }

    // Reads the records behind the header into a bare table, up to the first bad one or the end, or to the first over a limit.
    fn read_all(&mut self, image: &[u8]) -> Result<Filled, Refusal>
        requires bare { view self.old ≡ bare }
        requires long { 16 ≤ length image.now }
        ensures { (result, view self.new) ≡ fill_by 0 0 (scan (length image.now) image.now bare 16) }
    {
        // By hand, as the table learns between two records, so no iterator that borrows it to read them lives across the loop.
        let mut at = 16;
        let mut records = 0;
        let tail = 'reading: loop {
            let (read, next) = read_record(image, at, self);
            let learned = match read {
                Read::Path(name) => self.take_path(name.value),
                Read::Deps(deps) => self.take_deps(deps.value),
                Read::Bad(cause) => {
                    break Some(At {
                        offset: at,
                        value: cause,
                    });
                }
                Read::End => break None,
            };
            if !learned {
                self.clear();
                return Err(Refusal::OverLimit(at));
            }
            at = next;
            records += 1;
        };
        Ok(Filled {
            records,
            length: at,
            tail,
        })
    }

    // Fills the table with what the good records of an image tell. No bytes count as the bare header. A refusal leaves the table bare.
    pub fn fill(&mut self, image: &[u8]) -> Result<Filled, Refusal>
        ensures value { (result, view self.new) ≡ filled image.now }
        ensures kept { Kept (view self.new) }
        ensures written { FillsWritten image.now result (view self.new) }
    {
        self.clear();
        if image.is_empty() {
            return Ok(Filled {
                records: 0,
                length: 16,
                tail: None,
            });
        }
        if !image.starts_with(&HEADER) {
            return Err(Refusal::NoHeader);
        }
        self.read_all(image)
    }
}

// The image of a deps log, Ninja's version 4: reading and writing its records, and the table that good records give.
#![tactic(auto)]

mod cause;
mod entries;
mod entry;
mod fill;
mod filled;
mod head;
mod name;
mod names;
mod reader;
mod records;
mod row;
mod table;
mod tables;
mod words;
mod writer;

pub use cause::Cause;
pub use entry::DepsEntry;
pub use filled::Filled;
pub use name::Name;
pub use reader::read_record;
pub use records::{Deps, Read};
pub use table::DepsTable;
pub use writer::{HEADER, TooShort, padding_of, write_deps, write_header, write_path};

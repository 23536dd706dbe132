// Reading listings: a line for each file, its mtime and its name.
#![tactic(auto)]

mod decimal;
mod entry;
mod fault;
mod keys;
mod listing;
mod read;
mod row;

pub use fault::ListingFault;
pub use keys::Lines;
pub use listing::Listing;
pub use read::read_listing;
pub use row::Row;

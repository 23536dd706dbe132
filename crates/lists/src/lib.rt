// A list that grows over memory that the caller lends, parts of slices, and the one lookup by key.
#![tactic(auto)]

mod grow;
mod grown;
mod lookup;
mod names;

pub use grow::GrowList;
pub use lookup::{Keys, first};
pub use names::{Places, find_name};
pub use terms::part;

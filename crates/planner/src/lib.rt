// What makes a statement stale, and what is asked of whoever knows the entries. The definitions stand in specs/; nothing plans yet.
#![tactic(auto)]

mod entries;
mod letter;

pub use entries::Entries;
pub use letter::{Letter, PlanLine};

// The log on any medium.
#![tactic(auto)]

mod added;
mod adding;
mod calls;
mod log;
mod names;
mod noting;
mod opened;
mod opening;
mod putting;
mod recompacting;
mod recompaction;
mod replacing;
mod sink;

pub use log::Log;
pub use opened::Opened;
pub use recompaction::recompact;

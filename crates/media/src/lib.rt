// The media at the bottom of a pile: bench, whose failures are told, and paged, which keeps whole pages.
#![tactic(auto)]

mod area;
mod failing;
mod shelf;
mod store;

pub use failing::{Pages, Plan, Side};
pub use store::{Bench, Paged, Store, Token};

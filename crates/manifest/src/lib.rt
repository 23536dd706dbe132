// Reading manifests.
#![tactic(auto)]

mod binding;
mod build;
mod built;
mod each_word;
mod fault;
mod group;
mod groups;
mod keys;
mod kind;
mod limits;
mod line;
mod makers;
mod manifest;
mod owner;
mod read;
mod reader;
mod readers;
mod rule;
mod store;
mod words_left;

pub use fault::Fault;
pub use keys::Text;
pub use kind::Kind;
pub use line::kind_at;
pub use makers::{is_among, maker, rule_number};
pub use manifest::Manifest;
pub use owner::Owner;
pub use read::read_manifest;
pub use rule::{Rule, Statement};

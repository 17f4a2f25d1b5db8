// Whether the entries of a state are good: in range within the sizes, and 0, idle or unmarked beyond them.
#![tactic(auto)]

mod good;
mod ranges;

pub use good::{links_good, slots_good, tags_good, threads_good};

// The walk over the places for one object and, in specs/ and proofs/, the general facts that every crate above may lean on.
#![tactic(auto)]

mod walk;

pub use walk::in_one_place;

// What stands in the places of a state: how many objects in the places of a kind, and the numbers of all of them in one row.
#![tactic(auto)]

mod counting;
mod row;

pub use counting::{are_carried, in_handovers, in_hands, in_links};
pub use row::row_of;

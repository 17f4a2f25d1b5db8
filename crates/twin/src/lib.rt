// A second machine, written from document 01 and requests 2 and 7 of document 02 alone, to be run beside the first.
//
// It keeps one place for each object, where the first machine keeps one object for each place. So no object can be in two
// places here, and what stands in a link or a hand is found by a search over the objects.
#![tactic(auto)]

mod calls;
mod exchange;
mod go_on;
mod place;
mod refusal;
mod trap;
mod twin;

pub use exchange::of;
pub use refusal::Refusal;
pub use trap::Trap;
pub use twin::{Counts, Started, Stepped, Twin, start};

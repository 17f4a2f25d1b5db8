// A state, a call and an answer in plain numbers, written from document 01 and request 2 of document 02 alone, and the soundness
// that they ask of a state. The second machine and the plain store that runs stand on this. Everything is worked out in `usize`.
#![tactic(auto)]

mod num;
mod raw;
mod sizes;
mod task;

pub use num::{byte, put, word};
pub use raw::Raw;
pub use sizes::Sizes;
pub use task::{Doing, NoOperation, Operation, Order, Said, Task};

// Text put into a lent buffer: bytes, a line of numbers, a template with numbers filled in. Each is put at the page's place, leaves every
// other byte as it is, and moves the place behind what it wrote; where there is too little room it does nothing. Numbers are written by hand:
// the contracts say the exact bytes, and whole or nothing, which a writer that stops where the room ends does not give.
#![tactic(auto)]

mod filling;
mod line;
mod number;
pub mod page;
mod size;

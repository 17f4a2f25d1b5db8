// A schedule written as text, read into schedule records. The types stand here.
// `reading` reads the next field of a line, `lines` a whole line, and `packing` turns a whole text into records, or says which line is
// wrong and why. Where a word stands and what it says by itself is found in the crate `words`.
#![tactic(auto)]

mod lines;
pub mod packing;
mod reading;

// a fault is told in these two, so who reads one finds them here too
pub use words::{Why, Word};

// The fields of the two kinds of line.
#[derive(Clone, Copy, Debug, PartialEq, Eq)]
pub enum Place {
    Threads,
    Slots,
    Links,
    Objects,
    Thread,
    Operation,
    Slot,
    Link,
    Tag,
    // after the last of the sizes
    AfterSizes,
    // after the last field of a step
    AfterStep,
    // none of them
    Whole,
}

// What is wrong, in which field, and the word at which it was seen.
#[derive(Clone, Copy, Debug, PartialEq, Eq)]
pub struct Fault {
    pub why: Why,
    pub place: Place,
    pub word: Word,
}

// The number of the first line that is wrong, and what is wrong with it.
#[derive(Clone, Copy, Debug, PartialEq, Eq)]
pub struct Wrong {
    pub line: usize,
    pub fault: Fault,
}

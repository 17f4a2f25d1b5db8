// The record machine: the state, start, the soundness check, one step, and the count of the five places.
#![tactic(auto)]

mod caller;
mod calls;
mod count;
mod fresh;
mod go_on;
mod operation;
mod refusal;
mod refusals;
mod request;
mod soundness;
mod step;

use entries::{Sizes, Slot, Thread};
pub use fresh::start;
use pool::Pool;
pub use refusal::Refusal;

#[derive(Clone, Copy)]
pub struct State {
    pub sizes: Sizes,
    pub links: [u8; 16],
    pub threads: [Thread; 8],
    pub slots: [Slot; 32],
    pub pool: Pool,
    pub tags: [u32; 240],
}

// The operation is a byte and no enum: "operation not 1 to 7" is refused 22, in its turn among the refusals.
#[derive(Clone, Copy, Debug, PartialEq, Eq)]
pub struct Call {
    pub thread: u8,
    pub operation: u8,
    pub slot: u8,
    pub link: u8,
    pub tag: u32,
}

#[derive(Clone, Copy, Debug, PartialEq, Eq)]
pub enum Answer {
    Refused(Refusal),
    Taken(u8),
    Begun(u8),
    Working(Work),
    Protected(u8, u32),
    Nothing,
    Swapped(u8),
    Moved,
    Tag(u32),
    Finished,
    Left(u8, u8),
    Freed(u8),
}

// What a step that is answered 3 did, and the position concerned: the slot's own, or the one looked at or swapped at.
#[derive(Clone, Copy, Debug, PartialEq, Eq)]
pub enum Work {
    Publication(u8),
    FailedRead(u8),
    NoMatch(u8),
    Match(u8),
    Displacement(u8),
    Found(u8),
    FoundNothing(u8),
}

// "Each call hands the next state back."
#[derive(Clone, Copy)]
pub struct Outcome {
    pub state: State,
    pub answer: Answer,
}

// No `Result`, since a refusal has a state too: "refused 20 and returns the blank state".
#[derive(Clone, Copy)]
pub struct Started {
    pub state: State,
    pub verdict: Result<(), Refusal>,
}

#[derive(Clone, Copy, Debug, Default, PartialEq, Eq)]
pub struct Places {
    pub free: u8,
    pub links: u8,
    pub hands: u8,
    pub handovers: u8,
    pub carried: u8,
}

// No `Result`, since a refusal has counts too: "refused 19 with five zeros".
#[derive(Clone, Copy, Debug, PartialEq, Eq)]
pub struct Counted {
    pub places: Places,
    pub verdict: Result<(), Refusal>,
}

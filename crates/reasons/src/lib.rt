// Why an object is still kept: the one place that it is in, and the first slot in scan order that names it.
#![tactic(auto)]

mod explain;
mod hazards;

ghost use Rattle.std.specs.Prelude.{◌≡◌};
ghost use Rattle.reasons.specs.Numbers.{number_of};

pub use explain::why;

// How the slot in whose handover an object was left stands to that object.
#[derive(Clone, Copy, Debug, PartialEq, Eq)]
pub enum Guard {
    // its hazard is the object, and the mark is on
    Protected,
    // its hazard is the object, and the mark is off
    Published,
    // its hazard is something else, or nothing
    Otherwise,
}

// The one reason for which an object that is not free is kept.
#[derive(Clone, Copy, Debug, PartialEq, Eq)]
pub enum Reason {
    Link { link: u8 },
    Hand { thread: u8 },
    Carried { thread: u8, position: u8 },
    Handover { position: u8, guard: Guard },
}

// What is said of an object that is kept.
#[derive(Clone, Copy, Debug, PartialEq, Eq)]
pub struct Kept {
    pub reason: Reason,
    // the first position in scan order that holds the object as its hazard
    pub hazard: Option<u8>,
}

// "Refusals: 19, then 60 object not 1 to N, then 61 object is free."
#[derive(Clone, Copy, Debug, PartialEq, Eq)]
pub enum NotKept {
    Unsound = 19,
    NoSuchObject = 60,
    Free = 61,
}

impl NotKept {
    #[tactic(auto, unfolding(crate::specs::Numbers::number_of))]
    pub fn number(self) -> u8
        ensures { result ≡ number_of self }
    {
        self as u8
    }
}

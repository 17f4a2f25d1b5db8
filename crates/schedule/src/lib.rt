// An input's records as a run: "one sizes record, then at most 6,000 steps". `opening` starts the machine that the first record asks for,
// `going` says what stands next after so many steps, and `records::reading::rest` has the bytes after a record, so that a caller can go on.
#![tactic(auto)]

ghost use Rattle.std.specs.Prelude.{◌≡◌};
ghost use Rattle.schedule.specs.declared.Stop.TheVariants as stop;
ghost use Rattle.schedule.specs.Stopping.{stop_number};

pub mod going;
pub mod opening;

use machine::{Refusal, State};
use records::Malformed;

// The machine with which a run begins, or the blank state and why the run stops before its first step. The verdict stands beside the state
// and not around it, since a refused start "returns the blank state" (01).
#[derive(Clone, Copy)]
pub struct Opened {
    pub state: State,
    pub verdict: Result<(), Stop>,
}

// Why a run stops: bytes that are no record, sizes that the machine refuses, sizes that are missing at the front or come later, or a
// 6,001st step.
#[derive(Clone, Copy, Debug, PartialEq, Eq)]
pub enum Stop {
    Malformed(Malformed),
    Refused(Refusal),
    SizesNotFirst,
    TooManySteps,
}

impl Stop {
    // The paper's number.
    #[tactic(auto, unfolding(crate::specs::Stopping::stop_number))]
    pub fn number(self) -> u8
        ensures { result ≡ stop_number self }
    {
        match self {
            Stop::Malformed(why) => why.number(),
            Stop::Refused(refusal) => refusal.number(),
            Stop::SizesNotFirst => 42,
            Stop::TooManySteps => 43,
        }
    }
}

impl From<Malformed> for Stop {
    ghost from_gives = { λ why s. s ≡ stop.Malformed why };

    fn from(malformed: Malformed) -> Stop {
        Stop::Malformed(malformed)
    }
}

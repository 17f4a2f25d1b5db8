// A run after its first record.
ghost use Rattle.std.specs.Prelude.{◌≡◌};
ghost use Rattle.records.specs.Rest.{rest_of};
ghost use Rattle.schedule.specs.Said.{call_of};
ghost use Rattle.schedule.specs.Going.{next_of, steps_after, left_after};

use crate::Stop;
use machine::Call;
use records::reading::{read, rest};
use records::{Record, StepRecord};

// What a step record says, to the machine. No `From`: both types are other crates'.
fn call_of(step: StepRecord) -> Call
    ensures { result ≡ call_of step }
{
    Call {
        thread: step.thread,
        operation: step.operation,
        slot: step.slot,
        link: step.link,
        tag: step.tag,
    }
}

// What stands at the front of the bytes that are left, after so many steps: a call for the machine, nothing at the end of the input, or why
// the run stops.
#[tactic(auto, unfolding(crate::specs::Going::next_of, crate::specs::Going::next_at))]
pub fn next(left: &[u8], steps: u32) -> Result<Option<Call>, Stop>
    ensures { result ≡ next_of steps left.now }
{
    match read(left)? {
        Some(Record::Step(_)) if steps >= 6000 => Err(Stop::TooManySteps),
        Some(Record::Step(step)) => Ok(Some(call_of(step))),
        Some(Record::Sizes(_)) => Err(Stop::SizesNotFirst),
        None => Ok(None),
    }
}

// The calls of a run, one after the other: the bytes that are left, and how many calls came before them. The loop over them stays with each
// caller, who does another thing at each call.
#[derive(Clone, Copy, Debug)]
pub struct Calls<'a> {
    left: &'a [u8],
    steps: u32,
}

impl<'a> Calls<'a> {
    // From the record after the input's first on.
    pub fn new(input: &'a [u8]) -> Calls<'a>
        ensures left { result.left.now ≡ rest_of input.now }
        ensures steps { result.steps ≡ 0 }
    {
        Calls {
            left: rest(input),
            steps: 0,
        }
    }

    // What stands next. Only a call is passed over.
    #[tactic(auto, unfolding(crate::specs::Going::left_after, crate::specs::Going::steps_after), using(crate::proofs::Turns::call_room))]
    pub fn next(&mut self) -> Result<Option<Call>, Stop>
        ensures next { result ≡ next_of self.old.steps self.old.left.now }
        ensures left { self.new.left.now ≡ left_after result self.old.left.now }
        ensures steps { self.new.steps ≡ steps_after result self.old.steps }
    {
        let found = next(self.left, self.steps);
        if let Ok(Some(_)) = found {
            *self = Calls {
                left: rest(self.left),
                steps: self.steps + 1,
            };
        }
        found
    }

    // How many calls came so far.
    pub fn steps(&self) -> u32
        ensures { result ≡ self.now.steps }
    {
        self.steps
    }
}

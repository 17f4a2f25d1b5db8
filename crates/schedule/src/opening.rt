// The first record of a run.
ghost use Rattle.std.specs.Prelude.{◌≡◌};
ghost use Rattle.schedule.specs.Opening.{first_of, opened_of};

use crate::{Opened, Stop};
use machine::start;
use records::reading::read;
use records::{Record, SizesRecord};

// The sizes that the input starts with.
#[tactic(auto, unfolding(crate::specs::Opening::first_of, crate::specs::Opening::first_at))]
fn first(input: &[u8]) -> Result<SizesRecord, Stop>
    ensures { result ≡ first_of input.now }
{
    match read(input)? {
        Some(Record::Sizes(sizes)) => Ok(sizes),
        Some(Record::Step(_)) | None => Err(Stop::SizesNotFirst),
    }
}

// The machine of the sizes that the input starts with, or why there is none.
pub fn open(input: &[u8]) -> Opened
    ensures { result ≡ opened_of input.now }
{
    match first(input) {
        Ok(sizes) => {
            let started = start(sizes.threads, sizes.slots, sizes.links, sizes.objects);
            Opened {
                state: started.state,
                verdict: started.verdict.map_err(Stop::Refused),
            }
        }
        // no size is in range here, so this is the blank state
        Err(stop) => Opened {
            state: start(0, 0, 0, 0).state,
            verdict: Err(stop),
        },
    }
}

// Starting: "A fresh machine has every object free, tags 0, all else 0 and idle."
ghost use Rattle.std.specs.Prelude.{◌≡◌};
ghost use Rattle.machine.specs.Fresh.{fresh_of, start_of};

use crate::{Refusal, Started, State};
use entries::{Sizes, Slot, Thread};
use pool::Pool;

// A state with these sizes and every object free, all else 0 and idle.
#[tactic(auto, unfolding(crate::specs::Fresh::fresh_of))]
fn resting(sizes: Sizes) -> State
    ensures { result ≡ fresh_of sizes }
{
    State {
        sizes,
        links: [0; 16],
        threads: [Thread::default(); 8],
        slots: [Slot::default(); 32],
        pool: Pool::fresh(sizes.objects),
        tags: [0; 240],
    }
}

// "Starting with a size out of range is refused 20 and returns the blank state."
#[tactic(auto, unfolding(crate::specs::Fresh::start_of, crate::specs::Fresh::blank, crate::specs::Fresh::fresh_of))]
pub fn start(threads: u8, slots: u8, links: u8, objects: u8) -> Started
    ensures { result ≡ start_of (record { threads = threads; slots = slots; links = links; objects = objects }) }
{
    let sizes = Sizes {
        threads,
        slots,
        links,
        objects,
    };
    if sizes.in_range() {
        Started {
            state: resting(sizes),
            verdict: Ok(()),
        }
    } else {
        Started {
            state: resting(Sizes::default()),
            verdict: Err(Refusal::SizeOutOfRange),
        }
    }
}

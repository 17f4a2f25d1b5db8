// The soundness check, for any state.
ghost use Rattle.std.specs.Prelude.{◌≡◌};
ghost use Rattle.machine.specs.Parts.{of_parts};
ghost use Rattle.machine.specs.Soundness.{sound};

use crate::State;
use entries::{Sizes, Slot, Thread};
use good::{links_good, slots_good, tags_good, threads_good};
use places::row_of;
use pool::are_placed;

// The check of a state's parts. What has an entry for each object is lent, and the links, so that none of it is copied. The ranges come first: entries
// that are good hold nothing beyond the sizes, so only what is within them is laid out for the walk. Its parts and not the state: with
// `&State`, or with the threads and slots lent too, a call took 6 to 9 in a hundred more instructions at N 10, and a run 816 bytes more of stack.
pub(crate) fn parts_sound(
    z: Sizes,
    links: &[u8; 16],
    threads: [Thread; 8],
    slots: [Slot; 32],
    marks: &[bool; 240],
    tags: &[u32; 240],
) -> bool
    ensures { result ≡ sound (of_parts z links.now threads slots marks.now tags.now) }
{
    z.are_good()
        && links_good(z, links)
        && threads_good(z, threads)
        && slots_good(z, slots)
        && tags_good(z, tags)
        && are_placed(z.objects, marks, &row_of(z, *links, threads, slots))
}

impl State {
    pub fn is_sound(self) -> bool
        ensures { result ≡ sound self }
    {
        parts_sound(
            self.sizes,
            &self.links,
            self.threads,
            self.slots,
            &self.pool.marks,
            &self.tags,
        )
    }
}

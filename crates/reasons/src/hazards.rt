// What the slots say of an object: the first that holds it as a hazard, and how the one that was left with it guards it.
ghost use Rattle.std.specs.Prelude.{◌≡◌, ◌≤◌, get_or, eqb};
ghost use Rattle.entries.specs.Sizes.{positions};
ghost use Rattle.entries.specs.Entries.{empty_slot};
ghost use Rattle.reasons.specs.Reasons.{found, guard_of};

use crate::Guard;
use entries::{Sizes, Slot};

// "the first position in scan order that holds it as a hazard, or none": the slots of thread 0, then those of thread 1, and so on. A
// nested loop over threads and slots left by a label is the form that 01 names for it.
pub(crate) fn first_hazard(sizes: Sizes, slots: [Slot; 32], object: u8) -> Option<u8>
    requires { (sizes.threads ≤ 8) × (sizes.slots ≤ 4) }
    ensures { result ≡ found (positions sizes) (λ p. eqb (get_or slots p empty_slot).hazard object) }
{
    'scan: {
        for thread in 0..sizes.threads {
            for slot in 0..sizes.slots {
                let at = sizes.position(thread, slot);
                if slots[at].hazard == object {
                    break 'scan Some(at as u8);
                }
            }
        }
        None
    }
}

#[tactic(auto, unfolding(crate::specs::Reasons::guard_of))]
pub(crate) fn guard_of(slot: Slot, object: u8) -> Guard
    ensures { result ≡ guard_of slot object }
{
    match (slot.hazard == object, slot.mark) {
        (true, true) => Guard::Protected,
        (true, false) => Guard::Published,
        (false, _) => Guard::Otherwise,
    }
}

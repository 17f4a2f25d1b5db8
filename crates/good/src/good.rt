// "all numbers above are in range for them; entries beyond the sizes are 0, idle or unmarked": each entry, then each array.
#![tactic(auto, unfolding(entries::specs::Entries::link_good, entries::specs::Entries::thread_in_range, entries::specs::Entries::thread_empty, entries::specs::Entries::slot_in_range, entries::specs::Entries::slot_empty))]

ghost use Rattle.std.specs.Prelude.{◌≡◌, get_or};
ghost use Rattle.basics.specs.Under.{all_under};
ghost use Rattle.entries.specs.Entries.{idle_thread, empty_slot, link_good, thread_in_range, thread_empty, thread_good, slot_in_range, slot_empty, slot_good, tag_good};

use crate::ranges::phase_in_range;
use entries::{Sizes, Slot, Thread};

fn link_good(z: Sizes, i: usize, object: u8) -> bool
    ensures { result ≡ link_good z i object }
{
    if i < usize::from(z.links) {
        object <= z.objects
    } else {
        object == 0
    }
}

fn thread_in_range(z: Sizes, thread: Thread) -> bool
    ensures { result ≡ thread_in_range z thread }
{
    thread.hand <= z.objects && phase_in_range(z, thread.phase)
}

fn thread_empty(thread: Thread) -> bool
    ensures { result ≡ thread_empty thread }
{
    thread.hand == 0 && thread.phase.is_idle()
}

// "a protected mark stands only on a hazard that is not 0"
fn slot_in_range(n: u8, slot: Slot) -> bool
    ensures { result ≡ slot_in_range n slot }
{
    slot.hazard <= n && slot.handover <= n && (!slot.mark || slot.hazard != 0)
}

fn slot_empty(slot: Slot) -> bool
    ensures { result ≡ slot_empty slot }
{
    slot == Slot::default()
}

// Every link is looked at, so that many are taken at once.
pub fn links_good(z: Sizes, links: &[u8; 16]) -> bool
    ensures { result ≡ all_under 16 (λ i. link_good z i (get_or links.now i 0)) }
{
    let mut good = true;
    for (i, &object) in links.iter().enumerate() {
        good &= link_good(z, i, object);
    }
    good
}

// Those within the sizes, then those beyond them; the first that is wrong decides.
pub fn threads_good(z: Sizes, threads: [Thread; 8]) -> bool
    ensures { result ≡ all_under 8 (λ t. thread_good z t (get_or threads t idle_thread)) }
{
    let (within, beyond) = threads.split_at(usize::from(z.threads).min(8));
    within.iter().all(|&thread| thread_in_range(z, thread))
        && beyond.iter().all(|&thread| thread_empty(thread))
}

pub fn slots_good(z: Sizes, slots: [Slot; 32]) -> bool
    ensures { result ≡ all_under 32 (λ p. slot_good z p (get_or slots p empty_slot)) }
{
    let (within, beyond) = slots.split_at(z.positions().min(32));
    within.iter().all(|&slot| slot_in_range(z.objects, slot))
        && beyond.iter().all(|&slot| slot_empty(slot))
}

// Only tags beyond N can be wrong. Every entry is looked at, so that many are taken at once; `all` would leave at the first that is wrong.
pub fn tags_good(z: Sizes, tags: &[u32; 240]) -> bool
    ensures { result ≡ all_under 240 (λ k. tag_good z k (get_or tags.now k 0)) }
{
    let mut good = true;
    for &tag in &tags[usize::from(z.objects).min(240)..] {
        good &= tag == 0;
    }
    good
}

// Whether what a thread is in the middle of is in range, for good sizes.
ghost use Rattle.std.specs.Prelude.{◌≡◌, ◌&&◌, leb, ltb};
ghost use Rattle.entries.specs.Sizes.{within, positions};
ghost use Rattle.entries.specs.Phases.{phase_in_range};

use entries::{Phase, Sizes};

fn place_in_range(z: Sizes, slot: u8, link: u8) -> bool
    ensures { result ≡ ltb slot z.slots && ltb link z.links }
{
    slot < z.slots && link < z.links
}

// Not one function with the next, which differs from it in the operator: a look may stand at T × H, a swap may not.
fn look_in_range(z: Sizes, object: u8, position: u8) -> bool
    ensures { result ≡ within 1 z.objects object && leb position (positions z) }
{
    (1..=z.objects).contains(&object) && usize::from(position) <= z.positions()
}

fn swap_in_range(z: Sizes, object: u8, position: u8) -> bool
    ensures { result ≡ within 1 z.objects object && ltb position (positions z) }
{
    (1..=z.objects).contains(&object) && usize::from(position) < z.positions()
}

#[tactic(auto, unfolding(entries::specs::Phases::phase_in_range))]
pub(crate) fn phase_in_range(z: Sizes, phase: Phase) -> bool
    ensures { result ≡ phase_in_range z phase }
{
    match phase {
        Phase::Idle => true,
        Phase::Loaded { slot, link, object } => {
            place_in_range(z, slot, link) && object <= z.objects
        }
        Phase::Sweeping { slot, link } | Phase::Published { slot, link } => {
            place_in_range(z, slot, link)
        }
        Phase::Draining { slot } => slot < z.slots,
        Phase::Look { object, position } => look_in_range(z, object, position),
        Phase::Swap { object, position } => swap_in_range(z, object, position),
        // a scan that returns to a protect: its own numbers, then the slot and link that it remembers
        Phase::SweepLook {
            object,
            position,
            slot,
            link,
        } => look_in_range(z, object, position) && place_in_range(z, slot, link),
        Phase::SweepSwap {
            object,
            position,
            slot,
            link,
        } => swap_in_range(z, object, position) && place_in_range(z, slot, link),
    }
}

// How many objects stand in the links, in the hands and in the handovers, and how many are carried. Four functions though each is one
// expression: they are public, and the laws name each.
ghost use Rattle.std.specs.Prelude.{◌≡◌, ◌≤◌, Bool};
ghost use Rattle.entries.specs.Phases.{carried_by};
ghost use Rattle.basics.specs.Counts.{how_many};
ghost use Rattle.entries.specs.Entries.{is_object};

use entries::{Slot, Thread};

// How many of the entries a test picks. Counted in one byte by a loop, so that many are taken at once: by `filter` and `count`, which count
// in eight bytes and go entry by entry, the four counts took twice the instructions.
fn picked<T: Copy, const N: usize, F: Fn(T) -> bool>(entries: [T; N], picks: F) -> u8
    requires few { N ≤ 255 }
    requires callable { F.IsAlwaysCallable picks }
    ensures { (test : T → Bool) → ((x : T) (r : Bool) → F.post picks x r → r ≡ test x) → result ≡ how_many test entries }
{
    let mut n = 0;
    for &x in &entries {
        n += u8::from(picks(x));
    }
    n
}

pub fn in_links(links: [u8; 16]) -> u8
    ensures { result ≡ how_many is_object links }
{
    picked(links, |link| link != 0)
}

pub fn in_hands(threads: [Thread; 8]) -> u8
    ensures { result ≡ how_many (λ thread. is_object thread.hand) threads }
{
    picked(threads, |thread| thread.hand != 0)
}

pub fn in_handovers(slots: [Slot; 32]) -> u8
    ensures { result ≡ how_many (λ slot. is_object slot.handover) slots }
{
    picked(slots, |slot| slot.handover != 0)
}

pub fn are_carried(threads: [Thread; 8]) -> u8
    ensures { result ≡ how_many (λ thread. is_object (carried_by thread.phase)) threads }
{
    picked(threads, |thread| thread.phase.carried() != 0)
}

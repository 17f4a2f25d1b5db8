// The numbers that can hold an object, in one row, so that a walk takes many at once: 16 links, 8 hands, 32 handovers, 8 carried. Only
// what is within the sizes is laid there; the rest stays 0.
ghost use Rattle.std.specs.Prelude.{◌≡◌, ℕ, ◌+◌, ◌≤◌, map, length};
ghost use Rattle.std.proofs.Math.Seq.{paste};
ghost use Rattle.places.specs.Row.{row_of};

use entries::{Sizes, Slot, Thread};

// Lays the number that is read of each of the first entries, up to the end, into the row from there on. An array by value: lent, it stays in
// memory beside the others, and the check takes 80 bytes more of stack.
fn lay<T: Copy, const N: usize, F: Fn(T) -> u8>(
    row: &mut [u8; 64],
    from: usize,
    entries: [T; N],
    end: usize,
    read: F,
)
    requires room { (length row.old ≡ 64) × (from + end ≤ 64) × (end ≤ N) }
    requires callable { F.IsAlwaysCallable read }
    ensures { (number : T → ℕ) → ((x : T) (r : ℕ) → F.post read x r → r ≡ number x) → row.new ≡ paste row.old from (map number entries) end }
{
    for (i, &x) in entries[..end].iter().enumerate() {
        row[from + i] = read(x);
    }
}

pub fn row_of(z: Sizes, links: [u8; 16], threads: [Thread; 8], slots: [Slot; 32]) -> [u8; 64]
    ensures { result ≡ row_of z links threads slots }
{
    let mut row = [0; 64];
    let some = usize::from(z.threads).min(8);
    let links_end = usize::from(z.links).min(16);
    let slots_end = z.positions().min(32);
    lay(&mut row, 0, links, links_end, |link| link);
    lay(&mut row, 16, threads, some, |thread| thread.hand);
    lay(&mut row, 24, slots, slots_end, |slot| slot.handover);
    lay(&mut row, 56, threads, some, |thread| thread.phase.carried());
    row
}

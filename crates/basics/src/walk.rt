// The walk over the places for one object.
ghost use Rattle.std.specs.Prelude.{◌≡◌, ◌+◌, get_or, eqb};
ghost use Rattle.basics.specs.Counts.{bit, count_under};

// Whether the object is in one place: its free mark and how often it stands in the row, in one number. The whole row is walked, so that
// many numbers are taken at once. Counted in one byte: by `filter` and `count`, which count in eight, the whole check took 15 times as many
// instructions at N 240.
pub fn in_one_place(object: u8, free: bool, row: &[u8; 64]) -> bool
    ensures { result ≡ eqb (bit free + count_under 64 (λ i. eqb (get_or row.now i 0) object)) 1 }
{
    let mut n = u8::from(free);
    for &x in row {
        n += u8::from(x == object);
    }
    n == 1
}

// The marks of a pool, one after the other.
ghost use Rattle.std.specs.Prelude.{◌≡◌, false, not, ◌||◌, suc, ◌+◌, ◌≤◌, get_or, ltb, eqb, position};
ghost use Rattle.basics.specs.Counts.{bit, count_under, how_many};
ghost use Rattle.basics.specs.Under.{all_under};
ghost use Rattle.pool.specs.Pool.{marked};

use basics::in_one_place;

// "the first N then marked free"
pub(crate) fn first_marked(n: u8) -> [bool; 240]
    requires { n ≤ 240 }
    ensures { result ≡ marked n }
{
    let mut marks = [false; 240];
    marks[..usize::from(n)].fill(true);
    marks
}

// Where the first mark that is on stands. On its own: written in `Pool::next`, that the search is std's `position` did not prove.
pub(crate) fn first_on(marks: &[bool; 240]) -> Option<usize>
    ensures { result ≡ position (λ mark. mark) marks.now }
{
    marks.iter().position(|&mark| mark)
}

// Counted in one byte by a loop, so that many marks are taken at once: by `filter` and `count`, which count in eight bytes and go mark by
// mark, it took some forty times the instructions.
pub(crate) fn are_on(marks: &[bool; 240]) -> u8
    ensures { result ≡ how_many (λ mark. mark) marks.now }
{
    let mut n = 0;
    for &mark in marks {
        n += u8::from(mark);
    }
    n
}

// Every mark from n on is looked at, so that many are taken at once; `all` would leave at the first that is on.
pub(crate) fn off_from(n: u8, marks: &[bool; 240]) -> bool
    requires { n ≤ 240 }
    ensures { result ≡ all_under 240 (λ k. ltb k n || not (get_or marks.now k false)) }
{
    let mut off = true;
    for &mark in &marks[usize::from(n)..] {
        off &= !mark;
    }
    off
}

// "every object 1 to N is in exactly one place": the places are walked for each, and the first that is in none or in several decides. A
// loop: of `(1..=n).zip(marks).all(..)` the tactics proved all but what it answers.
pub(crate) fn each_once(n: u8, marks: &[bool; 240], row: &[u8; 64]) -> bool
    requires { n ≤ 240 }
    ensures { result ≡ all_under n (λ k. eqb (bit (get_or marks.now k false) + count_under 64 (λ i. eqb (get_or row.now i 0) (suc k))) 1) }
{
    for (k, &free) in marks[..usize::from(n)].iter().enumerate() {
        if !in_one_place(k as u8 + 1, free, row) {
            return false;
        }
    }
    true
}

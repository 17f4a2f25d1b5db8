// The pool: which objects are free, and which is handed out next. Nothing above it sees how that is kept, but that the soundness check lends
// its marks.
#![tactic(auto)]

mod marks;

ghost use Rattle.std.specs.Prelude.{◌≡◌, suc, false, not, ◌&&◌, ◌||◌, ◌≤◌, ◌<◌, ◌⊎◌, get_or, ltb, MatchOption};
ghost use Rattle.basics.specs.Under.{all_under};
ghost use Rattle.pool.specs.Pool.{pool_of, is_free, object_of, next_of, fresh_pool, marked_at, taken_out, put_back, free_count, each_once};

use marks::{are_on, each_once, first_marked, first_on, off_from};

// A mark for each object: object 1 has the first.
#[derive(Clone, Copy)]
pub struct Pool {
    pub marks: [bool; 240],
}

// Where the object's mark stands; the number 0 and those past 240 have none.
fn place(object: u8) -> Option<usize>
    ensures { MatchOption result ((object ≡ 0) ⊎ (240 < object)) (λ k. (k < 240) × (object ≡ suc k)) }
{
    let k = object.checked_sub(1)?;
    if k < 240 { Some(usize::from(k)) } else { None }
}

impl Pool {
    // A pool of so many objects, 240 at the most, all of them free.
    pub fn fresh(objects: u8) -> Pool
        ensures { result ≡ fresh_pool objects }
    {
        Pool {
            marks: first_marked(objects.min(240)),
        }
    }

    // The object that is handed out next, if one is free.
    pub fn next(self) -> Option<u8>
        ensures value { result ≡ object_of (next_of self) }
        ensures cases { MatchOption result (next_of self ≡ 0) (λ object. (object ≡ next_of self) × (0 < object)) }
        ensures within { next_of self ≤ 240 }
    {
        let first = first_on(&self.marks)?;
        Some(first as u8 + 1)
    }

    pub fn is_free(self, object: u8) -> bool
        ensures { result ≡ is_free self object }
    {
        place(object).is_some_and(|k| self.marks[k])
    }

    // The pool with the object's mark on or off.
    fn with_mark(mut self, object: u8, mark: bool) -> Pool
        ensures { result ≡ marked_at self object mark }
    {
        if let Some(k) = place(object) {
            self.marks[k] = mark;
        }
        self
    }

    // The pool without the object.
    #[tactic(auto, using(crate::specs::Lemmas::Marks::taken_is))]
    pub fn take_out(self, object: u8) -> Pool
        ensures { result ≡ taken_out self object }
    {
        self.with_mark(object, false)
    }

    // The pool with the object in it again.
    #[tactic(auto, using(crate::specs::Lemmas::Marks::put_is))]
    pub fn put_back(self, object: u8) -> Pool
        ensures { result ≡ put_back self object }
    {
        self.with_mark(object, true)
    }

    // How many objects are free.
    pub fn count(self) -> u8
        ensures { result ≡ free_count self }
    {
        are_on(&self.marks)
    }
}

// Whether these are the marks of a pool of so many objects, nothing beyond them being free, and each of the objects is free or stands
// among the 64 numbers, and that once. The marks are lent: a pool goes by value, and the check may copy nothing that has 240 entries.
#[tactic(auto, unfolding(crate::specs::Pool::each_once, crate::specs::Pool::is_free))]
pub fn are_placed(objects: u8, marks: &[bool; 240], row: &[u8; 64]) -> bool
    ensures { result ≡ (all_under 240 (λ k. ltb k objects || not (get_or marks.now k false)) && each_once objects (pool_of marks.now) row.now) }
{
    objects <= 240 && off_from(objects, marks) && each_once(objects, marks, row)
}

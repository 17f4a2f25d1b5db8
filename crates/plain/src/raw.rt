// A state as 01 lists it, in plain numbers, and 01's soundness asked of it: each object is looked for in every place.
ghost use Rattle.std.specs.Prelude.{◌≤◌, length};

use crate::sizes::Sizes;
use crate::task::{Doing, Task};

// Object o stands at o - 1 in `free` and `tag`. Rows of one number each, and no rows of threads and slots as the first machine has
// them: soundness asks the same of each row, and a mistake in that layout is not made twice.
#[derive(Clone, Copy, PartialEq, Eq)]
pub struct Raw {
    pub sizes: Sizes,
    pub link: [u8; 16],
    pub hand: [u8; 8],
    pub task: [Task; 8],
    pub hazard: [u8; 32],
    pub mark: [bool; 32],
    pub handover: [u8; 32],
    pub free: [bool; 240],
    pub tag: [u32; 240],
}

// The first `size` numbers are at most `most`, and those beyond are 0.
fn within(xs: &[u8], size: usize, most: usize) -> bool {
    xs.iter().take(size).all(|&x| usize::from(x) <= most) && xs.iter().skip(size).all(|&x| x == 0)
}

// In how many of a row of places an object stands.
fn found(xs: &[u8], object: usize) -> usize
    ensures bound { result ≤ length xs.now }
{
    xs.iter().filter(|&&x| usize::from(x) == object).count()
}

impl Raw {
    pub const EMPTY: Raw = Raw {
        sizes: Sizes::NONE,
        link: [0; 16],
        hand: [0; 8],
        task: [Task::IDLE; 8],
        hazard: [0; 32],
        mark: [false; 32],
        handover: [0; 32],
        free: [false; 240],
        tag: [0; 240],
    };

    // "all sizes .. 0", or "its sizes are in range".
    fn sized(&self) -> bool {
        self.sizes == Sizes::NONE || self.sizes.in_range()
    }

    // "all numbers above are in range .. entries beyond the sizes are 0, idle or unmarked": all but the threads' tasks. Any tag is
    // good for one of the objects.
    fn in_range(&self) -> bool {
        let all = self.sizes.positions();
        let n = self.sizes.objects;
        within(&self.link, self.sizes.links, n)
            && within(&self.hand, self.sizes.threads, n)
            && within(&self.hazard, all, n)
            && within(&self.handover, all, n)
            && self.free.iter().skip(n).all(|&free| !free)
            && self.tag.iter().skip(n).all(|&tag| tag == 0)
    }

    fn slot_and_link(&self, task: Task) -> bool {
        task.slot < self.sizes.slots && task.link < self.sizes.links
    }

    // 02: "Such a thread remembers its slot and link through the scan, and soundness asks that both are in range."
    fn returns(&self, task: Task) -> bool {
        !task.back || self.slot_and_link(task)
    }

    // A thread "is idle, or in one of: Loaded(slot, link, object or 0), Published(slot, link), Draining(slot), Look(object,
    // position 0 to T × H), Swap(object, position below T × H)".
    fn fits(&self, task: Task) -> bool {
        let carries = (1..=self.sizes.objects).contains(&task.seen) && self.returns(task);
        match task.doing {
            Doing::Idle => true,
            Doing::Loaded => self.slot_and_link(task) && task.seen <= self.sizes.objects,
            Doing::Published => self.slot_and_link(task),
            Doing::Draining => task.slot < self.sizes.slots && self.returns(task),
            Doing::Look => carries && task.position <= self.sizes.positions(),
            Doing::Swap => carries && task.position < self.sizes.positions(),
        }
    }

    fn tasks_fit(&self) -> bool {
        let mut used = self.task.iter().take(self.sizes.threads);
        let mut beyond = self.task.iter().skip(self.sizes.threads);
        used.all(|&task| self.fits(task)) && beyond.all(|task| task.doing == Doing::Idle)
    }

    // "a protected mark stands only on a hazard that is not 0": so none stands beyond the sizes, where hazards are 0.
    fn marks_stand(&self) -> bool {
        self.mark
            .iter()
            .zip(&self.hazard)
            .all(|(&mark, &hazard)| !mark || hazard != 0)
    }

    // How many places an object is in, of "free, one link, one hand, one handover, or carried by one thread".
    fn homes(&self, free: bool, object: usize) -> usize {
        let carried = self
            .task
            .iter()
            .filter(|task| task.scans() && task.seen == object)
            .count();
        usize::from(free)
            + found(&self.link, object)
            + found(&self.hand, object)
            + found(&self.handover, object)
            + carried
    }

    // "every object 1 to N is in exactly one place".
    fn each_once(&self) -> bool {
        self.free
            .iter()
            .take(self.sizes.objects)
            .enumerate()
            .all(|(i, &free)| self.homes(free, i + 1) == 1)
    }

    pub fn sound(&self) -> bool {
        self.sized()
            && self.in_range()
            && self.tasks_fit()
            && self.marks_stand()
            && self.each_once()
    }
}

// A state of the second machine, a start and a step of it, and what is read off it and put in it.
use crate::place::Place;
use crate::refusal::Refusal;
use crate::trap::Trap;
use plain::{Doing, Said, Sizes, Task};

// `trap` is the trap that this twin falls into. Object o has its place and its tag at o - 1. What Look and Swap carry is not read
// off the task: it is the object whose place is "carried by this thread". The rows are those of a `Raw`, so that they are copied
// from it and to it whole.
#[derive(Clone, Copy)]
pub struct Twin {
    pub trap: Option<Trap>,
    pub sizes: Sizes,
    pub place: [Place; 240],
    pub tag: [u32; 240],
    pub hazard: [u8; 32],
    pub mark: [bool; 32],
    pub task: [Task; 8],
}

#[derive(Clone, Copy)]
pub struct Stepped {
    pub twin: Twin,
    pub said: Said,
}

// A state beside the refusal, since a start that is refused "returns the blank state".
#[derive(Clone, Copy)]
pub struct Started {
    pub twin: Twin,
    pub refused: Option<Refusal>,
}

// How many objects are in the places of each kind.
#[derive(Clone, Copy, Debug, PartialEq, Eq)]
pub struct Counts {
    pub free: usize,
    pub links: usize,
    pub hands: usize,
    pub handovers: usize,
    pub carried: usize,
}

// 01: "Starting with a size out of range is refused 20 and returns the blank state."
pub fn start(sizes: Sizes) -> Started {
    if !sizes.in_range() {
        return Started {
            twin: Twin::BLANK,
            refused: Some(Refusal::Sizes),
        };
    }
    let mut fresh = Twin {
        sizes,
        ..Twin::BLANK
    };
    for place in fresh.place.iter_mut().take(sizes.objects) {
        *place = Place::Free;
    }
    Started {
        twin: fresh,
        refused: None,
    }
}

impl Counts {
    pub const NONE: Counts = Counts {
        free: 0,
        links: 0,
        hands: 0,
        handovers: 0,
        carried: 0,
    };
}

// Where an object stands in a row. Object 0 is none, and stands past the end of every row.
fn index(object: usize) -> usize {
    object.wrapping_sub(1)
}

impl Twin {
    pub const BLANK: Twin = Twin {
        trap: None,
        sizes: Sizes::NONE,
        place: [Place::Nowhere; 240],
        tag: [0; 240],
        hazard: [0; 32],
        mark: [false; 32],
        task: [Task::IDLE; 8],
    };

    pub fn in_trap(mut self, trap: Option<Trap>) -> Twin {
        self.trap = trap;
        self
    }

    pub(crate) fn answer(self, number: usize, a: usize, b: usize) -> Stepped {
        let said = Said { number, a, b };
        Stepped { twin: self, said }
    }

    // "Refusals of a call return a = b = 0 and the same state."
    pub(crate) fn refused(self, refusal: Refusal) -> Stepped {
        self.answer(refusal.number(), 0, 0)
    }

    // The lowest-numbered object at a place. 01: "0 means no object".
    pub(crate) fn at(&self, wanted: Place) -> usize {
        let mut places = self.place.iter().take(self.sizes.objects);
        places
            .position(|&place| place == wanted)
            .map_or(0, |i| i + 1)
    }

    pub(crate) fn put(&mut self, object: usize, place: Place) {
        plain::put(&mut self.place, index(object), place);
    }

    pub(crate) fn tag_of(&self, object: usize) -> usize {
        self.tag.get(index(object)).copied().unwrap_or(0) as usize
    }

    pub(crate) fn set_tag(&mut self, object: usize, tag: usize) {
        plain::put(&mut self.tag, index(object), plain::word(tag));
    }

    fn count<F: Fn(Place) -> bool>(&self, is: F) -> usize
        requires { F.IsAlwaysCallable is }
    {
        self.place
            .iter()
            .take(self.sizes.objects)
            .filter(|&&place| is(place))
            .count()
    }

    pub fn counts(&self) -> Counts {
        Counts {
            free: self.count(|place| place == Place::Free),
            links: self.count(|place| matches!(place, Place::Link(_))),
            hands: self.count(|place| matches!(place, Place::Hand(_))),
            handovers: self.count(|place| matches!(place, Place::Handover(_))),
            carried: self.count(|place| matches!(place, Place::Carried(_))),
        }
    }

    // Whether a thread's hand is full.
    pub fn holds(&self, t: usize) -> bool {
        self.at(Place::hand(t)) != 0
    }

    // Whether what a thread has in its hand is the hazard of a slot.
    pub fn hand_in_hazard(&self, t: usize) -> bool {
        let object = self.at(Place::hand(t));
        let mut hazards = self.hazard.iter();
        object != 0 && hazards.any(|&hazard| usize::from(hazard) == object)
    }

    pub fn in_link(&self, l: usize) -> usize {
        self.at(Place::link(l))
    }

    // The hazard at a position.
    pub(crate) fn hazard_at(&self, p: usize) -> usize {
        self.hazard.get(p).copied().map_or(0, usize::from)
    }

    pub fn hazard_of(&self, t: usize, slot: usize) -> usize {
        self.hazard_at(self.sizes.position(t, slot))
    }

    // What a thread is in the middle of, but for what it carries.
    pub fn task_of(&self, t: usize) -> Task {
        self.task.get(t).copied().unwrap_or(Task::IDLE)
    }

    pub fn busy(&self, t: usize) -> bool {
        self.task_of(t).doing != Doing::Idle
    }

    // A thread is in the middle of something else.
    pub fn becomes(mut self, t: usize, task: Task) -> Twin {
        plain::put(&mut self.task, t, task);
        self
    }

    pub(crate) fn set_hazard(&mut self, p: usize, object: usize) {
        plain::put(&mut self.hazard, p, plain::byte(object));
    }

    pub(crate) fn set_mark(&mut self, p: usize, on: bool) {
        plain::put(&mut self.mark, p, on);
    }

    // A hazard anew, and its mark off. A trap that is early takes the handover here, and leaves the hazard to the drain.
    pub fn announce(&mut self, t: usize, p: usize, object: usize, early: bool) {
        if early {
            self.put(self.at(Place::handover(p)), Place::carried(t));
        } else {
            self.set_hazard(p, object);
        }
        self.set_mark(p, false);
    }

    // T × (H + 1), the most objects that can wait to be freed.
    pub fn bound(&self) -> usize {
        let Sizes { threads, .. } = self.sizes;
        self.sizes.positions().saturating_add(threads)
    }
}

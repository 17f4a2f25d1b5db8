// The calls of the schedules, each worked out from the schedule's seed and what the twin's threads are doing.
use crate::dice::Seed;
use crate::plan::{Plan, Style};
use plain::{Operation, Order, Sizes};
use twin::Twin;

fn go_on(thread: usize) -> Order {
    Order {
        thread,
        operation: Operation::GoOn as usize,
        ..Order::default()
    }
}

fn some_tag(seed: Seed) -> usize {
    let tag = match seed.pick(9, 8) {
        0 => 0,
        1 => u32::MAX,
        _ => seed.mix(10).0,
    };
    tag as usize
}

// How often each operation is drawn for an idle thread: with an object in hand it is put in a link or retired, with none one
// is sought. Clear is rare, so that it is mostly a sweep that finds a handover full.
fn operation(seed: Seed, full: bool) -> Operation {
    match (full, seed.pick(2, 16)) {
        (true, 0..=5) => Operation::Swap,
        (true, 6..=11) => Operation::Retire,
        (true, 12 | 13) => Operation::Protect,
        (false, 0..=2) => Operation::Take,
        (false, 3..=8) => Operation::Protect,
        (false, 9..=13) => Operation::Swap,
        (_, 14) => Operation::Read,
        _ => Operation::Clear,
    }
}

// What a call is drawn for: a thread, whether it is busy, whether its hand is full, and the sizes.
#[derive(Clone, Copy, Debug, PartialEq, Eq)]
struct Seen {
    thread: usize,
    busy: bool,
    full: bool,
    sizes: Sizes,
}

impl Seen {
    fn of(thread: usize, w: &Twin) -> Seen {
        Seen {
            thread,
            busy: w.busy(thread),
            full: w.holds(thread),
            sizes: w.sizes,
        }
    }

    // A call that may well be accepted: a busy thread goes on, an idle one begins something. Low links are drawn more often, so
    // that threads meet there.
    fn sensible(self, seed: Seed) -> Order {
        if self.busy && !seed.once_in(1, 32) {
            return go_on(self.thread);
        }
        let operation = operation(seed, self.full);
        let low = seed.once_in(5, 2);
        Order {
            thread: self.thread,
            operation: operation as usize,
            slot: match operation {
                Operation::Take | Operation::Retire => 0,
                Operation::Swap if seed.once_in(4, 3) => 255,
                _ => seed.pick(3, self.sizes.slots),
            },
            link: match operation {
                Operation::Protect | Operation::Swap if !low => seed.pick(6, self.sizes.links),
                _ => 0,
            },
            tag: match operation {
                Operation::Take => some_tag(seed),
                _ => 0,
            },
        }
    }
}

// A call that would do little: to protect an empty link, or what the slot has already; a swap that finds something else or moves
// nothing, or keeps from being retired what a slot has as its hazard; to retire anything else; to clear an empty slot.
fn dull(o: Order, full: bool, w: &Twin) -> bool {
    let there = w.in_link(o.link);
    let hazard = w.hazard_of(o.thread, o.slot);
    match o.known() {
        Some(Operation::Protect) => there == 0 || there == hazard,
        Some(Operation::Retire) => !w.hand_in_hazard(o.thread),
        Some(Operation::Clear) => hazard == 0,
        Some(Operation::Swap) if w.hand_in_hazard(o.thread) => true,
        Some(Operation::Swap) if o.slot == 255 => !full || there != 0,
        Some(Operation::Swap) => there != hazard,
        _ => false,
    }
}

// Up to eight tries for a call that the twin accepts and that is seldom dull. One thread is tried first for some calls on end,
// so that the others stand still in the middle of something.
fn accepted(seed: Seed, first: usize, loyal: bool, w: &Twin) -> Order {
    for k in 0..8 {
        let own = seed.mix(k);
        let any = own.pick(0, w.sizes.threads);
        let stay = k < 4 && (loyal || !own.once_in(7, 4));
        let about = Seen::of(if stay { first } else { any }, w);
        let order = about.sensible(own);
        if about.busy && order.known() == Some(Operation::GoOn) {
            return order;
        }
        let wanted = own.once_in(8, 8) || !dull(order, about.full, w);
        if wanted && w.accepts(order).is_ok() {
            return order;
        }
    }
    Seen::of(seed.pick(0, w.sizes.threads), w).sensible(seed)
}

// In range, one past it, or 255.
fn near(seed: Seed, index: usize, n: usize) -> usize {
    match seed.pick(index ^ 32, 8) {
        0 => n,
        1 => 255,
        2..=4 => 0,
        _ => seed.pick(index, n),
    }
}

fn rough(seed: Seed, w: &Twin) -> Order {
    Order {
        thread: near(seed, 0, w.sizes.threads),
        operation: seed.pick(1, 9),
        slot: near(seed, 2, w.sizes.slots),
        link: near(seed, 3, w.sizes.links),
        tag: if seed.once_in(4, 4) {
            seed.mix(5).0 as usize
        } else {
            0
        },
    }
}

fn wild(seed: Seed) -> Order {
    Order {
        thread: seed.pick(0, 256) & seed.pick(5, 256) & seed.pick(6, 256),
        operation: seed.pick(1, 256) & seed.pick(7, 256) & 15,
        slot: seed.pick(2, 256) & seed.pick(8, 256),
        link: seed.pick(3, 256),
        tag: seed.mix(4).0 as usize,
    }
}

// Call number `index` of a schedule.
pub fn order(plan: Plan, index: usize, w: &Twin) -> Order {
    let seed = plan.seed.mix(index);
    let loyal = plan.style == Style::Loyal;
    let turn = if loyal { index / 12 } else { index / 8 };
    let first = plan.seed.pick(turn + 1000, w.sizes.threads);
    let k = seed.pick(40, 32);
    match plan.style {
        Style::Wild if k < 24 => wild(seed),
        Style::Wild => rough(seed, w),
        Style::Rough if k < 16 => rough(seed, w),
        Style::Sensible if k == 0 => rough(seed, w),
        Style::Loyal | Style::Rough | Style::Sensible => accepted(seed, first, loyal, w),
    }
}

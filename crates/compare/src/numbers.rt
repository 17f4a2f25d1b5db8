// The first machine's types as plain numbers, by 01's numbering and request 7's. The answers' numbers are written here anew, from the
// papers. A refusal's is the machine's own, and is compared with the number that the twin has, or a case, each written anew too.
use entries::Phase;
use machine::{Answer, Call, Refusal, Started, State, Work};
use plain::{Doing, Order, Raw, Said, Sizes, Task};

pub fn start(sizes: Sizes) -> Started {
    machine::start(
        plain::byte(sizes.threads),
        plain::byte(sizes.slots),
        plain::byte(sizes.links),
        plain::byte(sizes.objects),
    )
}

fn sizes(of: entries::Sizes) -> Sizes {
    Sizes {
        threads: usize::from(of.threads),
        slots: usize::from(of.slots),
        links: usize::from(of.links),
        objects: usize::from(of.objects),
    }
}

pub fn call(order: Order) -> Call {
    Call {
        thread: plain::byte(order.thread),
        operation: plain::byte(order.operation),
        slot: plain::byte(order.slot),
        link: plain::byte(order.link),
        tag: plain::word(order.tag),
    }
}

fn say(number: usize, a: usize, b: usize) -> Said {
    Said { number, a, b }
}

// 3, what was done by request 7's number, and "the position concerned".
fn worked(work: Work) -> Said {
    let (done, position) = match work {
        Work::Publication(position) => (1, position),
        Work::FailedRead(position) => (2, position),
        Work::NoMatch(position) => (3, position),
        Work::Match(position) => (4, position),
        Work::Displacement(position) => (5, position),
        Work::Found(position) => (6, position),
        Work::FoundNothing(position) => (7, position),
    };
    say(3, done, usize::from(position))
}

pub fn said(answer: Answer) -> Said {
    match answer {
        Answer::Refused(refusal) => say(usize::from(refusal.number()), 0, 0),
        Answer::Taken(object) => say(1, usize::from(object), 0),
        Answer::Begun(object) => say(2, usize::from(object), 0),
        Answer::Working(work) => worked(work),
        Answer::Protected(object, tag) => say(4, usize::from(object), tag as usize),
        Answer::Nothing => say(5, 0, 0),
        Answer::Swapped(object) => say(6, usize::from(object), 0),
        Answer::Moved => say(7, 0, 0),
        Answer::Tag(tag) => say(8, tag as usize, 0),
        Answer::Finished => say(9, 0, 0),
        Answer::Left(object, position) => say(10, usize::from(object), usize::from(position)),
        Answer::Freed(object) => say(11, usize::from(object), 0),
    }
}

// The number of the refusal, None where the verdict is good.
pub fn refused(verdict: Result<(), Refusal>) -> Option<usize> {
    verdict.err().map(|refusal| usize::from(refusal.number()))
}

// A task with the slot and the link that it names.
fn on(doing: Doing, slot: u8, link: u8) -> Task {
    Task {
        doing,
        slot: usize::from(slot),
        link: usize::from(link),
        ..Task::IDLE
    }
}

// A task that carries an object, at a position.
fn scan(doing: Doing, object: u8, position: u8) -> Task {
    Task {
        doing,
        seen: usize::from(object),
        position: usize::from(position),
        ..Task::IDLE
    }
}

// The same of a thread that returns to Published.
fn returning(task: Task, slot: u8, link: u8) -> Task {
    Task {
        back: true,
        slot: usize::from(slot),
        link: usize::from(link),
        ..task
    }
}

fn task_of(phase: Phase) -> Task {
    match phase {
        Phase::Idle => Task::IDLE,
        Phase::Loaded { slot, link, object } => Task {
            seen: usize::from(object),
            ..on(Doing::Loaded, slot, link)
        },
        Phase::Published { slot, link } => on(Doing::Published, slot, link),
        Phase::Draining { slot } => on(Doing::Draining, slot, 0),
        Phase::Sweeping { slot, link } => Task {
            back: true,
            ..on(Doing::Draining, slot, link)
        },
        Phase::Look { object, position } => scan(Doing::Look, object, position),
        Phase::Swap { object, position } => scan(Doing::Swap, object, position),
        Phase::SweepLook {
            object,
            position,
            slot,
            link,
        } => returning(scan(Doing::Look, object, position), slot, link),
        Phase::SweepSwap {
            object,
            position,
            slot,
            link,
        } => returning(scan(Doing::Swap, object, position), slot, link),
    }
}

pub fn raw(state: State) -> Raw {
    let mut free = [false; 240];
    for (object, free) in (1..=240).zip(&mut free) {
        *free = state.pool.is_free(object);
    }
    let link = state.links;
    let tag = state.tags;
    let hand = state.threads.map(|thread| thread.hand);
    let task = state.threads.map(|thread| task_of(thread.phase));
    let hazard = state.slots.map(|slot| slot.hazard);
    let mark = state.slots.map(|slot| slot.mark);
    let handover = state.slots.map(|slot| slot.handover);
    Raw {
        sizes: sizes(state.sizes),
        link,
        hand,
        task,
        hazard,
        mark,
        handover,
        free,
        tag,
    }
}

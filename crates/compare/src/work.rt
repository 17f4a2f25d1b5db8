// What request 7 has a 3 say, worked out from what the thread was in the middle of before a call and after it, and from no
// machine's answer: a number that both machines had wrong would be seen.
use plain::{Doing, Said, Sizes, Task};

// "Let a be 1 after publishing, 2 after a failed second read, 3 after a look with no match, 4 after a look with a match, 5 after
// a swap that displaced, 6 after a drain that found something, and 7 after request 2's drain that found nothing." None where the
// answer is not to be 3.
fn done(before: Task, after: Task) -> Option<usize> {
    match (before.doing, after.doing) {
        (Doing::Loaded, _) => Some(1),
        (Doing::Published, Doing::Loaded) => Some(2),
        (Doing::Look, Doing::Look) => Some(3),
        (Doing::Look, Doing::Swap) => Some(4),
        (Doing::Swap, Doing::Look) => Some(5),
        (Doing::Draining, Doing::Look) => Some(6),
        (Doing::Draining, _) if before.back => Some(7),
        _ => None,
    }
}

// "Let b be the position concerned, the one looked at and not the next": where nothing is looked or swapped at, the slot's own.
fn concerned(before: Task, own: usize) -> usize {
    if before.scans() { before.position } else { own }
}

// Whether the answer to a call of this thread is a 3 where it is to be, with its two values, and nowhere else. A refused call does
// nothing.
pub fn fits(said: Said, before: Task, after: Task, thread: usize, sizes: Sizes) -> bool {
    match done(before, after) {
        Some(a) if !said.is_refusal() => {
            let own = sizes.position(thread, before.slot);
            let b = concerned(before, own);
            said == Said { number: 3, a, b }
        }
        _ => said.number != 3,
    }
}

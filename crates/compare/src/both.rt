// One call on one state, sound or not, by both machines.
use crate::five::Five;
use crate::{numbers, work};
use machine::State;
use plain::{Order, Said};

// What the state is, what the first machine answered, and whether checks, answers, next states and counts agree. Answers agree if
// they are the same, and a 3 says what was done.
#[derive(Clone, Copy)]
pub struct Both {
    pub sound: bool,
    pub said: Said,
    pub checks: bool,
    pub answers: bool,
    pub states: bool,
    pub counts: bool,
}

impl Both {
    pub fn agree(self) -> bool {
        self.checks && self.answers && self.states && self.counts
    }
}

// On a sound state as the twin has them; on another 19, the same state, and five zeros.
pub fn called(s: State, order: Order) -> Both {
    let raw = numbers::raw(s);
    let sound = raw.sound();
    let checks = s.is_sound() == sound;
    let out = s.step(numbers::call(order));
    let next = numbers::raw(out.state);
    let said = numbers::said(out.answer);
    let five = Five::of_first(s);
    if !sound {
        let unsound = Said {
            number: 19,
            a: 0,
            b: 0,
        };
        return Both {
            sound,
            said,
            checks,
            answers: said == unsound,
            states: next == raw,
            counts: five == Five::REFUSED,
        };
    }
    let w = twin::of(&raw);
    let ours = w.step(order);
    let t = order.thread;
    let fits = work::fits(said, w.task_of(t), ours.twin.task_of(t), t, raw.sizes);
    Both {
        sound,
        said,
        checks,
        answers: said == ours.said && fits,
        states: next == ours.twin.raw(),
        counts: five == Five::of_twin(&w),
    }
}

// A call for which one refusal is due and a later one may apply too, and the state on which it is made: one in which a thread's
// call is accepted, but for these.
use crate::line::{Facts, Field, Line};
use crate::setting::Setting;
use crate::stage::{Doing, Hazard, Scene};
use machine::State;
use plain::{Operation, Order};

// `due` is None where the call is accepted, and `later` where no other applies. `operation` is any number, since one that is no
// operation's is due 22. What is wrong is wrong by much where `far`, and otherwise by one. `unused` is the field that is not 0 where
// 23 applies, and `doing` what the thread is in the middle of where it is not idle.
#[derive(Clone, Copy, Debug, PartialEq, Eq)]
pub struct Case {
    pub due: Option<Line>,
    pub later: Option<Line>,
    pub operation: usize,
    pub far: bool,
    pub unused: Field,
    pub doing: Doing,
}

impl Case {
    fn has(self, line: Line) -> bool {
        self.due == Some(line) || self.later == Some(line)
    }

    fn known(self) -> Option<Operation> {
        Operation::try_from(self.operation).ok()
    }

    // For a slot that is not protected a hazard without a mark, or none.
    fn scene(self) -> Scene {
        let goes_on = self.known() == Some(Operation::GoOn) && !self.has(Line::Idle);
        Scene {
            doing: if goes_on || self.has(Line::Busy) {
                self.doing
            } else {
                Doing::Idle
            },
            full: self.has(Line::HandFull)
                || self.known() == Some(Operation::Retire) && !self.has(Line::HandEmpty),
            hazard: if !self.has(Line::NotProtected) {
                Hazard::Protected
            } else if self.far {
                Hazard::Empty
            } else {
                Hazard::Unmarked
            },
            none_free: self.has(Line::NoneFree),
            unsound: self.has(Line::Unsound),
        }
    }

    // A field that is not used is 1 or its highest bit alone. One that is used is one past its size, or as large as can be where
    // "255 is good in swap only".
    fn call(self, z: Setting) -> Order {
        let mut o = z.call(self.operation);
        let far = self.far;
        let swap = self.known() == Some(Operation::Swap);
        if self.has(Line::NoSuchThread) {
            o.thread = z.sizes.threads;
        }
        if self.has(Line::UnusedNotZero) {
            match self.unused {
                Field::Slot => o.slot = if far { 1 << 7 } else { 1 },
                Field::Link => o.link = if far { 1 << 7 } else { 1 },
                Field::Tag => o.tag = if far { 1 << 31 } else { 1 },
            }
        }
        if self.has(Line::NoSuchSlot) {
            o.slot = match far {
                true if swap => 254,
                true => 255,
                false => z.sizes.slots,
            };
        }
        if self.has(Line::NoSuchLink) {
            o.link = if far { 255 } else { z.sizes.links };
        }
        if self.due.is_none() && far && swap {
            o.slot = 255;
        }
        o
    }

    // Whether both machines give what is due, and the later line applies too.
    pub fn is_shown(self, z: Setting) -> bool {
        let s = self.scene().built(z);
        let o = self.call(z);
        let due = match self.due {
            Some(line) => line.is_given(s, o),
            None => is_accepted(s, o),
        };
        due && match self.later {
            Some(line) => line.applies(Facts::of(s, o), o),
            None => true,
        }
    }
}

// By both machines.
fn is_accepted(s: State, o: Order) -> bool {
    let both = compare::called(s, o);
    both.agree() && !both.said.is_refusal()
}

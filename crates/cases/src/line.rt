// 01's table of refusals, each line looked at by itself.
use machine::State;
use plain::{Operation, Order, Sizes};

// The lines, by their numbers. An enum of its own, and not the first machine's, whose numbers would else be held to themselves.
#[derive(Clone, Copy, Debug, PartialEq, Eq)]
pub enum Line {
    Unsound = 19,
    NoSuchThread = 21,
    NoSuchOperation = 22,
    UnusedNotZero = 23,
    NoSuchSlot = 24,
    NoSuchLink = 25,
    Busy = 26,
    Idle = 27,
    HandFull = 28,
    HandEmpty = 29,
    NoneFree = 30,
    NotProtected = 31,
}

#[derive(Clone, Copy, Debug, PartialEq, Eq)]
pub enum Field {
    Slot,
    Link,
    Tag,
}

impl Field {
    // The column "Uses". An operation that is none uses nothing.
    pub fn is_used_by(self, operation: Option<Operation>) -> bool {
        match operation {
            Some(Operation::Take) => self == Field::Tag,
            Some(Operation::Protect | Operation::Swap) => self != Field::Tag,
            Some(Operation::Read | Operation::Clear) => self == Field::Slot,
            Some(Operation::Retire | Operation::GoOn) | None => false,
        }
    }
}

// What the lines look at, of a state and the thread and slot that a call names. A thread or slot beyond the sizes has an entry
// as long as there is room: it is idle, its hand is empty, it is not protected. Where there is none it is so too.
#[derive(Clone, Copy, Debug, PartialEq, Eq)]
pub struct Facts {
    sound: bool,
    sizes: Sizes,
    busy: bool,
    full: bool,
    protected: bool,
    free: bool,
}

impl Facts {
    pub fn of(s: State, o: Order) -> Facts {
        let r = compare::raw(s);
        let w = twin::of(&r);
        let position = r.sizes.position(o.thread, o.slot);
        Facts {
            sound: r.sound(),
            sizes: r.sizes,
            busy: w.busy(o.thread),
            full: w.holds(o.thread),
            protected: r.mark.get(position).copied().unwrap_or(false),
            free: w.counts().free != 0,
        }
    }
}

impl Line {
    // In 01's order.
    pub const ALL: [Line; 12] = [
        Line::Unsound,
        Line::NoSuchThread,
        Line::NoSuchOperation,
        Line::UnusedNotZero,
        Line::NoSuchSlot,
        Line::NoSuchLink,
        Line::Busy,
        Line::Idle,
        Line::HandFull,
        Line::HandEmpty,
        Line::NotProtected,
        Line::NoneFree,
    ];

    // The operations of which a line speaks.
    pub fn speaks_of(self, operation: Option<Operation>) -> bool {
        match self {
            Line::Unsound | Line::NoSuchThread | Line::UnusedNotZero => true,
            Line::NoSuchOperation => operation.is_none(),
            Line::NoSuchSlot => Field::Slot.is_used_by(operation),
            Line::NoSuchLink => Field::Link.is_used_by(operation),
            Line::Busy => operation.is_some() && operation != Some(Operation::GoOn),
            Line::Idle => operation == Some(Operation::GoOn),
            Line::HandFull | Line::NoneFree => operation == Some(Operation::Take),
            Line::HandEmpty => operation == Some(Operation::Retire),
            Line::NotProtected => matches!(operation, Some(Operation::Swap | Operation::Read)),
        }
    }

    // Whether a line's condition holds, whatever the others say.
    pub fn applies(self, f: Facts, o: Order) -> bool {
        let operation = o.known();
        let no_slot = operation == Some(Operation::Swap) && o.slot == 255;
        self.speaks_of(operation)
            && match self {
                Line::Unsound => !f.sound,
                Line::NoSuchThread => f.sizes.threads <= o.thread,
                Line::NoSuchOperation => true,
                Line::UnusedNotZero => {
                    o.slot != 0 && !Field::Slot.is_used_by(operation)
                        || o.link != 0 && !Field::Link.is_used_by(operation)
                        || o.tag != 0 && !Field::Tag.is_used_by(operation)
                }
                Line::NoSuchSlot => f.sizes.slots <= o.slot && !no_slot,
                Line::NoSuchLink => f.sizes.links <= o.link,
                Line::Busy => f.busy,
                Line::Idle => !f.busy,
                Line::HandFull => f.full,
                Line::HandEmpty => !f.full,
                Line::NotProtected => !f.protected && !no_slot,
                Line::NoneFree => !f.free,
            }
    }

    // Whether both machines give this refusal, and it applies.
    pub fn is_given(self, s: State, o: Order) -> bool {
        let both = compare::called(s, o);
        both.agree() && both.said.number == self as usize && self.applies(Facts::of(s, o), o)
    }
}

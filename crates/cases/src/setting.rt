// The sizes of directed cases, their limits, and the call that is made under them.
use crate::line::Field;
use machine::Started;
use plain::{Operation, Order, Sizes};

#[derive(Clone, Copy, Debug, PartialEq, Eq)]
pub enum Size {
    Threads,
    Slots,
    Links,
    Objects,
}

// One below the lower limit, the lower limit, the upper one, one above that.
#[derive(Clone, Copy, Debug, PartialEq, Eq)]
pub enum Side {
    Below,
    Lowest,
    Highest,
    Above,
}

#[derive(Clone, Copy, Debug, PartialEq, Eq)]
pub struct Setting {
    pub sizes: Sizes,
}

// The last thread, slot of a thread, link and position within the sizes.
#[derive(Clone, Copy, Debug, PartialEq, Eq)]
pub struct Last {
    pub thread: usize,
    pub slot: usize,
    pub link: usize,
    pub position: usize,
}

impl Size {
    pub const ALL: [Size; 4] = [Size::Threads, Size::Slots, Size::Links, Size::Objects];

    // "T threads 1 to 8, H hazard slots per thread 1 to 4, L links 1 to 16, N objects 1 to 240".
    pub fn most(self) -> u8 {
        match self {
            Size::Threads => 8,
            Size::Slots => 4,
            Size::Links => 16,
            Size::Objects => 240,
        }
    }

    pub fn at(self, side: Side) -> usize {
        let most = usize::from(self.most());
        match side {
            Side::Below => 0,
            Side::Lowest => 1,
            Side::Highest => most,
            Side::Above => most + 1,
        }
    }
}

impl Side {
    pub const ALL: [Side; 4] = [Side::Below, Side::Lowest, Side::Highest, Side::Above];

    pub const LIMITS: [Side; 2] = [Side::Lowest, Side::Highest];
}

impl Setting {
    pub const BLANK: Setting = Setting { sizes: Sizes::NONE };

    // L is T + H and N twice that: a size that was taken for another would be wrong in most settings.
    pub fn of(threads: u8, slots: u8) -> Setting {
        let links = usize::from(threads) + usize::from(slots);
        Setting {
            sizes: Sizes {
                threads: usize::from(threads),
                slots: usize::from(slots),
                links,
                objects: 2 * links,
            },
        }
    }

    pub fn last(self) -> Last {
        let sizes = self.sizes;
        Last {
            thread: sizes.threads.saturating_sub(1),
            slot: sizes.slots.saturating_sub(1),
            link: sizes.links.saturating_sub(1),
            position: sizes.positions().saturating_sub(1),
        }
    }

    pub fn with(mut self, size: Size, n: usize) -> Setting {
        match size {
            Size::Threads => self.sizes.threads = n,
            Size::Slots => self.sizes.slots = n,
            Size::Links => self.sizes.links = n,
            Size::Objects => self.sizes.objects = n,
        }
        self
    }

    pub fn start(self) -> Started {
        compare::start(self.sizes)
    }

    // The call of the last thread with its last slot, the last link and the largest tag, where the operation uses them.
    pub fn call(self, operation: usize) -> Order {
        let known = Operation::try_from(operation).ok();
        let last = self.last();
        Order {
            thread: last.thread,
            operation,
            slot: if Field::Slot.is_used_by(known) {
                last.slot
            } else {
                0
            },
            link: if Field::Link.is_used_by(known) {
                last.link
            } else {
                0
            },
            tag: if Field::Tag.is_used_by(known) {
                u32::MAX as usize
            } else {
                0
            },
        }
    }
}

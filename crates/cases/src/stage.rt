// States of directed cases, built entry by entry.
use crate::setting::{Setting, Size};
use entries::{Phase, Sizes, Slot, Thread};
use machine::State;

// What a thread is in the middle of. The last three are Draining, Look and Swap after a publication, to which they return.
#[derive(Clone, Copy, Debug, PartialEq, Eq)]
pub enum Doing {
    Idle,
    Loaded,
    Published,
    Draining,
    Look,
    Swap,
    Sweeping,
    SweepLook,
    SweepSwap,
}

// The numbers that a phase may name.
#[derive(Clone, Copy, Debug, PartialEq, Eq)]
pub struct Named {
    pub slot: usize,
    pub link: usize,
    pub object: usize,
    pub position: usize,
}

impl Doing {
    pub const BUSY: [Doing; 8] = [
        Doing::Loaded,
        Doing::Published,
        Doing::Draining,
        Doing::Look,
        Doing::Swap,
        Doing::Sweeping,
        Doing::SweepLook,
        Doing::SweepSwap,
    ];

    pub fn looks(self) -> bool {
        matches!(self, Doing::Look | Doing::SweepLook)
    }

    // Whether a thread that is doing this carries an object.
    pub fn carries(self) -> bool {
        self.looks() || matches!(self, Doing::Swap | Doing::SweepSwap)
    }

    pub fn phase(self, named: Named) -> Phase {
        let slot = plain::byte(named.slot);
        let link = plain::byte(named.link);
        let object = plain::byte(named.object);
        let position = plain::byte(named.position);
        match self {
            Doing::Idle => Phase::Idle,
            Doing::Loaded => Phase::Loaded { slot, link, object },
            Doing::Published => Phase::Published { slot, link },
            Doing::Draining => Phase::Draining { slot },
            Doing::Look => Phase::Look { object, position },
            Doing::Swap => Phase::Swap { object, position },
            Doing::Sweeping => Phase::Sweeping { slot, link },
            Doing::SweepLook => Phase::SweepLook {
                object,
                position,
                slot,
                link,
            },
            Doing::SweepSwap => Phase::SweepSwap {
                object,
                position,
                slot,
                link,
            },
        }
    }
}

// A state that is being built. What lies beyond the room of a state is left out.
#[derive(Clone, Copy)]
pub struct Stage {
    pub state: State,
}

impl Stage {
    // The fresh state, or the blank one where a size is out of range.
    pub fn fresh(z: Setting) -> Stage {
        Stage {
            state: z.start().state,
        }
    }

    // The same entries under other sizes.
    pub fn resized(mut self, z: Setting) -> Stage {
        self.state.sizes = Sizes {
            threads: plain::byte(z.sizes.threads),
            slots: plain::byte(z.sizes.slots),
            links: plain::byte(z.sizes.links),
            objects: plain::byte(z.sizes.objects),
        };
        self
    }

    pub fn link(mut self, l: usize, object: usize) -> Stage {
        plain::put(&mut self.state.links, l, plain::byte(object));
        self
    }

    pub fn thread(mut self, t: usize, hand: usize, phase: Phase) -> Stage {
        let hand = plain::byte(hand);
        plain::put(&mut self.state.threads, t, Thread { hand, phase });
        self
    }

    pub fn slot(mut self, p: usize, hazard: usize, mark: bool, handover: usize) -> Stage {
        let slot = Slot {
            hazard: plain::byte(hazard),
            mark,
            handover: plain::byte(handover),
        };
        plain::put(&mut self.state.slots, p, slot);
        self
    }

    pub fn tag(mut self, object: usize) -> Stage {
        plain::put(&mut self.state.tags, object.saturating_sub(1), 1);
        self
    }

    // An object is free no more.
    pub fn taken(mut self, object: usize) -> Stage {
        self.state.pool = self.state.pool.take_out(plain::byte(object));
        self
    }

    pub fn freed(mut self, object: usize) -> Stage {
        self.state.pool = self.state.pool.put_back(plain::byte(object));
        self
    }
}

// How the last slot of the last thread is: its hazard with a mark or without one, or none.
#[derive(Clone, Copy, Debug, PartialEq, Eq)]
pub enum Hazard {
    Protected,
    Unmarked,
    Empty,
}

// What the last thread is doing, whether its hand is full, how its last slot is, whether no object is free, and whether the state
// is unsound for something that no other refusal looks at.
#[derive(Clone, Copy, Debug, PartialEq, Eq)]
pub struct Scene {
    pub doing: Doing,
    pub full: bool,
    pub hazard: Hazard,
    pub none_free: bool,
    pub unsound: bool,
}

impl Scene {
    // The last thread's last slot has object 1, which is in the last link. Object 2 is in the last hand or in the first link,
    // object 3 is carried or in the first handover. A fourth is free, or not there.
    pub fn built(self, z: Setting) -> State {
        let last = z.last();
        let phase = self.doing.phase(Named {
            slot: last.slot,
            link: last.link,
            object: 3,
            position: 0,
        });
        let (in_hand, in_link) = if self.full { (2, 0) } else { (0, 2) };
        let left = if self.doing.carries() { 0 } else { 3 };
        let hazard = if self.hazard == Hazard::Empty { 0 } else { 1 };
        let objects = if self.none_free { 3 } else { 4 };
        let stage = Stage::fresh(z.with(Size::Objects, objects))
            .taken(1)
            .taken(2)
            .taken(3)
            .link(last.link, 1)
            .link(0, in_link)
            .thread(last.thread, in_hand, phase)
            .slot(0, 0, false, left)
            .slot(last.position, hazard, self.hazard == Hazard::Protected, 0);
        if self.unsound {
            stage.tag(240).state
        } else {
            stage.state
        }
    }
}

// 01's table of calls: what is refused, in 01's order, and what operations 1 to 6 do.
use crate::place::Place;
use crate::refusal::Refusal;
use crate::trap::Trap;
use crate::twin::{Stepped, Twin};
use plain::{Doing, Operation, Order, Task};

fn uses_slot(operation: Operation) -> bool {
    matches!(
        operation,
        Operation::Protect | Operation::Swap | Operation::Read | Operation::Clear
    )
}

fn uses_link(operation: Operation) -> bool {
    matches!(operation, Operation::Protect | Operation::Swap)
}

// 23: "an unused field is not 0".
fn untidy(o: Order, operation: Operation) -> bool {
    o.slot != 0 && !uses_slot(operation)
        || o.link != 0 && !uses_link(operation)
        || o.tag != 0 && operation != Operation::Take
}

impl Twin {
    // The operation, or the first of the refusals that do not depend on what the thread is doing.
    fn shaped(&self, o: Order) -> Result<Operation, Refusal> {
        if o.thread >= self.sizes.threads {
            return Err(Refusal::Thread);
        }
        let operation = o.known().ok_or(Refusal::Operation)?;
        if untidy(o, operation) {
            return Err(Refusal::UnusedField);
        }
        let wild = operation == Operation::Swap && o.slot == 255;
        if uses_slot(operation) && o.slot >= self.sizes.slots && !wild {
            return Err(Refusal::Slot);
        }
        if uses_link(operation) && o.link >= self.sizes.links {
            return Err(Refusal::Link);
        }
        Ok(operation)
    }

    // 31: "swap with a slot, or read: slot not protected".
    fn lacks_mark(&self, o: Order, operation: Operation) -> bool {
        let needed = match operation {
            Operation::Read => true,
            Operation::Swap => o.slot != 255,
            _ => false,
        };
        let position = self.sizes.position(o.thread, o.slot);
        needed && !self.mark.get(position).copied().unwrap_or(false)
    }

    // The operation of a call that is accepted. 01: "The first that applies is given, in this order, and never otherwise."
    pub fn accepts(&self, o: Order) -> Result<Operation, Refusal> {
        let operation = self.shaped(o)?;
        let busy = self.busy(o.thread);
        match operation {
            Operation::GoOn if !busy => Err(Refusal::Idle),
            Operation::GoOn => Ok(operation),
            _ if busy => Err(Refusal::NotIdle),
            Operation::Take if self.holds(o.thread) => Err(Refusal::HandNotEmpty),
            Operation::Retire if !self.holds(o.thread) => Err(Refusal::HandEmpty),
            _ if self.lacks_mark(o, operation) => Err(Refusal::NotProtected),
            Operation::Take if self.at(Place::Free) == 0 => Err(Refusal::NoneFree),
            _ => Ok(operation),
        }
    }

    pub fn step(self, o: Order) -> Stepped {
        let t = o.thread;
        match self.accepts(o) {
            Err(refusal) => self.refused(refusal),
            Ok(Operation::Take) => self.take(t, o.tag),
            Ok(Operation::Protect) => self.protect(t, o.slot, o.link),
            Ok(Operation::Swap) => self.swap(t, o.slot, o.link),
            Ok(Operation::Read) => self.read(t, o.slot),
            Ok(Operation::Retire) => self.retire(t),
            Ok(Operation::Clear) => self.clear(t, o.slot),
            Ok(Operation::GoOn) => self.go_on(t),
        }
    }

    fn take(mut self, t: usize, tag: usize) -> Stepped {
        let object = self.at(Place::Free);
        self.put(object, Place::hand(t));
        self.set_tag(object, tag);
        self.answer(1, object, 0)
    }

    fn protect(self, t: usize, slot: usize, link: usize) -> Stepped {
        let seen = self.at(Place::link(link));
        let next = Task {
            doing: Doing::Loaded,
            slot,
            link,
            seen,
            ..Task::IDLE
        };
        self.becomes(t, next).answer(2, seen, 0)
    }

    fn swap(mut self, t: usize, slot: usize, link: usize) -> Stepped {
        let there = self.at(Place::link(link));
        let wanted = match slot {
            255 => 0,
            _ => self.hazard_of(t, slot),
        };
        if there != wanted {
            return self.answer(7, 0, 0);
        }
        let mine = self.at(Place::hand(t));
        self.put(there, Place::hand(t));
        self.put(mine, Place::link(link));
        self.answer(6, there, 0)
    }

    fn read(self, t: usize, slot: usize) -> Stepped {
        let tag = self.tag_of(self.hazard_of(t, slot));
        self.answer(8, tag, 0)
    }

    fn retire(mut self, t: usize) -> Stepped {
        let object = self.at(Place::hand(t));
        self.put(object, Place::carried(t));
        let next = Task::IDLE.scanning(Doing::Look, 0);
        self.becomes(t, next).answer(2, object, 0)
    }

    fn clear(mut self, t: usize, slot: usize) -> Stepped {
        let p = self.sizes.position(t, slot);
        let early = self.trap == Some(Trap::DrainEarly);
        self.announce(t, p, 0, early);
        let next = Task {
            doing: Doing::Draining,
            slot,
            ..Task::IDLE
        };
        self.becomes(t, next).answer(2, 0, 0)
    }
}

// 01's "Go on", one step of what a thread is in the middle of, with the step that request 2 adds after a publication.
//
// Request 7 has a 3 say what was done: "Let a be 1 after publishing, 2 after a failed second read, 3 after a look with no match, 4
// after a look with a match, 5 after a swap that displaced, 6 after a drain that found something, and 7 after request 2's drain
// that found nothing. Let b be the position concerned, the one looked at and not the next."
use crate::place::Place;
use crate::trap::Trap;
use crate::twin::{Stepped, Twin};
use plain::{Doing, Task};

// What a drain or a scan ends in: idle, or Published where it followed a publication.
fn after(task: Task) -> Task {
    if !task.back {
        return Task::IDLE;
    }
    Task {
        doing: Doing::Published,
        slot: task.slot,
        link: task.link,
        ..Task::IDLE
    }
}

impl Twin {
    pub fn go_on(self, t: usize) -> Stepped {
        let task = self.task_of(t);
        match task.doing {
            Doing::Loaded => self.publish(t, task),
            Doing::Published => self.read_again(t, task),
            Doing::Draining => self.drain(t, task),
            Doing::Look => self.look(t, task),
            // An idle thread was refused before.
            Doing::Swap | Doing::Idle => self.hand_over(t, task),
        }
    }

    // "Loaded: store the object in the hazard, mark off", and then request 2: "After each publication the thread now takes one
    // further step on that slot's handover, as Draining does". In the trap that sweeps early the object is still to be stored. The
    // two steps say the same there, so that the trap is seen by what it does and not by what it says.
    fn publish(mut self, t: usize, task: Task) -> Stepped {
        let p = self.sizes.position(t, task.slot);
        let early = self.trap == Some(Trap::SweepEarly);
        self.announce(t, p, task.seen, early);
        if self.trap == Some(Trap::MarkEarly) {
            return self.protected(t, p, task.seen);
        }
        let next = Task {
            doing: Doing::Draining,
            back: true,
            slot: task.slot,
            link: task.link,
            seen: if early { task.seen } else { 0 },
            position: 0,
        };
        self.becomes(t, next).answer(3, 1, p)
    }

    // "Equal to the hazard and not 0: mark on, idle, 4 Protected (object, tag). Equal and 0: idle, 5 Nothing (0, 0)."
    fn protected(mut self, t: usize, p: usize, object: usize) -> Stepped {
        if object == 0 {
            return self.becomes(t, Task::IDLE).answer(5, 0, 0);
        }
        self.set_mark(p, true);
        let tag = self.tag_of(object);
        self.becomes(t, Task::IDLE).answer(4, object, tag)
    }

    // "Published: read the link again."
    fn read_again(self, t: usize, task: Task) -> Stepped {
        let p = self.sizes.position(t, task.slot);
        let there = self.at(Place::link(task.link));
        if there == self.hazard_at(p) {
            return self.protected(t, p, there);
        }
        let next = Task {
            doing: Doing::Loaded,
            slot: task.slot,
            link: task.link,
            seen: there,
            ..Task::IDLE
        };
        self.becomes(t, next).answer(3, 2, p)
    }

    // "Draining: take the handover and put 0 there. It was 0: idle, 9 Finished (0, 0)." After a publication "it found 0, answer 3
    // and go to Published". A drain or sweep that began early has taken the handover, and stores the hazard here.
    fn drain(mut self, t: usize, task: Task) -> Stepped {
        let p = self.sizes.position(t, task.slot);
        let early = match self.trap {
            Some(Trap::SweepEarly) => task.back,
            Some(Trap::DrainEarly) => !task.back,
            _ => false,
        };
        let object = if early {
            self.set_hazard(p, task.seen);
            self.at(Place::carried(t))
        } else {
            self.at(Place::handover(p))
        };
        if object != 0 {
            self.put(object, Place::carried(t));
            self.scan(t, task, Doing::Look, p, 6)
        } else if task.back {
            self.becomes(t, after(task)).answer(3, 7, p)
        } else {
            self.becomes(t, after(task)).answer(9, 0, 0)
        }
    }

    // Look or Swap at the position concerned, and 3 with what was done there.
    fn scan(self, t: usize, task: Task, doing: Doing, p: usize, done: usize) -> Stepped {
        self.becomes(t, task.scanning(doing, p)).answer(3, done, p)
    }

    // Look one position on, and 3 with what was done at this one.
    fn scan_on(self, t: usize, task: Task, done: usize) -> Stepped {
        let p = task.position;
        let next = task.scanning(Doing::Look, p.saturating_add(1));
        self.becomes(t, next).answer(3, done, p)
    }

    // 10 or 11, which "returns the thread to Published and not to idle" where its scan followed a publication.
    fn ended(self, t: usize, task: Task, number: usize, object: usize, p: usize) -> Stepped {
        let next = match self.trap {
            Some(Trap::IdleAfter) => Task::IDLE,
            _ => after(task),
        };
        self.becomes(t, next).answer(number, object, p)
    }

    // Whether a position is one of a thread's own.
    fn owns(&self, t: usize, p: usize) -> bool {
        let first = self.sizes.position(t, 0);
        first <= p && p - first < self.sizes.slots
    }

    // Whether a hazard after position p is the object.
    fn later(&self, object: usize, p: usize) -> bool {
        let hazards = self.hazard.iter().skip(p.saturating_add(1));
        hazards.copied().any(|hazard| usize::from(hazard) == object)
    }

    // "Look": on to Swap, to the next position, or to freeing at the end.
    fn look(self, t: usize, task: Task) -> Stepped {
        let p = task.position;
        let object = self.at(Place::carried(t));
        if p >= self.sizes.positions() {
            return self.free(t, task, object);
        }
        let blind = self.trap == Some(Trap::OthersOnly) && self.owns(t, p);
        if self.hazard_at(p) != object || blind {
            return self.scan_on(t, task, 3);
        }
        if self.trap == Some(Trap::FreeAtLast) && !self.later(object, p) {
            return self.free(t, task, object);
        }
        self.scan(t, task, Doing::Swap, p, 4)
    }

    fn free(mut self, t: usize, task: Task, object: usize) -> Stepped {
        self.put(object, Place::Free);
        self.set_tag(object, 0);
        self.ended(t, task, 11, object, 0)
    }

    // "Swap: put the object in that handover."
    fn hand_over(mut self, t: usize, task: Task) -> Stepped {
        let p = task.position;
        let object = self.at(Place::carried(t));
        let old = self.at(Place::handover(p));
        self.put(object, Place::handover(p));
        if old == 0 {
            return self.ended(t, task, 10, object, p);
        }
        self.put(old, Place::carried(t));
        match self.trap {
            Some(Trap::MoveOn) => self.scan_on(t, task, 5),
            _ => self.scan(t, task, Doing::Look, p, 5),
        }
    }
}

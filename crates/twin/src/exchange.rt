// From plain numbers to a twin, and from a twin to plain numbers.
use crate::place::Place;
use crate::twin::Twin;
use plain::Raw;

// The twin of a sound state. Of another it is one to draw a call for: there an object may be in two places, and here it is in
// the last that names it.
pub fn of(r: &Raw) -> Twin {
    let mut w = Twin {
        sizes: r.sizes,
        hazard: r.hazard,
        mark: r.mark,
        task: r.task,
        tag: r.tag,
        ..Twin::BLANK
    };
    for (place, &free) in w.place.iter_mut().zip(&r.free) {
        if free {
            *place = Place::Free;
        }
    }
    for (l, &object) in r.link.iter().enumerate() {
        w.put(usize::from(object), Place::link(l));
    }
    for (t, &object) in r.hand.iter().enumerate() {
        w.put(usize::from(object), Place::hand(t));
    }
    for (t, task) in r.task.iter().enumerate() {
        if task.scans() {
            w.put(task.seen, Place::carried(t));
        }
    }
    for (p, &object) in r.handover.iter().enumerate() {
        w.put(usize::from(object), Place::handover(p));
    }
    w
}

impl Twin {
    // The state in plain numbers.
    pub fn raw(&self) -> Raw {
        let mut r = Raw {
            sizes: self.sizes,
            hazard: self.hazard,
            mark: self.mark,
            task: self.task,
            tag: self.tag,
            ..Raw::EMPTY
        };
        for (i, &place) in self.place.iter().enumerate().take(self.sizes.objects) {
            let object = plain::byte(i + 1);
            match place {
                Place::Nowhere => {}
                Place::Free => r.free[i] = true,
                Place::Link(l) => plain::put(&mut r.link, usize::from(l), object),
                Place::Hand(t) => plain::put(&mut r.hand, usize::from(t), object),
                Place::Handover(p) => plain::put(&mut r.handover, usize::from(p), object),
                Place::Carried(t) => {
                    if let Some(task) = r.task.get_mut(usize::from(t)) {
                        task.seen = usize::from(object);
                    }
                }
            }
        }
        r
    }
}

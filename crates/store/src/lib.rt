// 01's plain store: "It keeps links, hands and slots, and makes a new record at each take, never discarding one."
// A record is the number of its take, from 1; 0 is no record. A schedule run beside it has at most 255 takes.
#![tactic(auto)]

use plain::{Operation, Order, Raw, Said, Sizes, put};

// The slot and the link that a thread's last protect named, which is listed only when it ends.
#[derive(Clone, Copy, Default)]
struct Protect {
    slot: usize,
    link: usize,
}

// `tag` has the tag of each record, and `last` for each object "the take that last handed it out". `protect` stands by the
// thread. `waiting` is 01's "accepted retires less Freed answers".
#[derive(Clone, Copy)]
pub struct Store {
    sizes: Sizes,
    link: [u8; 16],
    hand: [u8; 8],
    slot: [u8; 32],
    takes: u8,
    tag: [u32; 256],
    last: [u8; 241],
    protect: [Protect; 8],
    pub waiting: usize,
}

// The record in one of some places, 0 where there is no such place.
fn at(row: &[u8], place: usize) -> u8 {
    row.get(place).copied().unwrap_or(0)
}

impl Store {
    pub fn bare(sizes: Sizes) -> Store {
        Store {
            sizes,
            link: [0; 16],
            hand: [0; 8],
            slot: [0; 32],
            takes: 0,
            tag: [0; 256],
            last: [0; 241],
            protect: [Protect::default(); 8],
            waiting: 0,
        }
    }

    // The record that an object's number is read as.
    pub fn record(&self, object: usize) -> u8 {
        at(&self.last, object)
    }

    fn tag_of(&self, record: u8) -> usize {
        self.tag[usize::from(record)] as usize
    }

    // What a call to the machine and its answer mean to the store: whether it gives the same answer, or None where the call is not
    // listed. "Calls are listed at these moments: take, swap, read, retire and clear when accepted; protect when it answers 4 or
    // 5." Refused calls are not listed.
    pub fn hear(&mut self, o: Order, s: Said) -> Option<bool> {
        if s.is_refusal() {
            return None;
        }
        match o.known() {
            Some(Operation::Take) => Some(self.take(o, s)),
            Some(Operation::Protect) => {
                self.begin(o);
                None
            }
            Some(Operation::Swap) => Some(self.swap(o, s)),
            Some(Operation::Read) => Some(self.read(o, s)),
            Some(Operation::Retire) => Some(self.retire(o, s)),
            Some(Operation::Clear) => Some(self.clear(o, s)),
            Some(Operation::GoOn) | None => self.go_on(o, s),
        }
    }

    fn take(&mut self, o: Order, s: Said) -> bool {
        let Some(record) = self.takes.checked_add(1) else {
            return false;
        };
        self.takes = record;
        self.tag[usize::from(record)] = plain::word(o.tag);
        put(&mut self.last, s.a, record);
        put(&mut self.hand, o.thread, record);
        s.number == 1
    }

    fn begin(&mut self, o: Order) {
        let Order { slot, link, .. } = o;
        put(&mut self.protect, o.thread, Protect { slot, link });
    }

    fn swap(&mut self, o: Order, s: Said) -> bool {
        let there = at(&self.link, o.link);
        let wanted = match o.slot {
            255 => 0,
            slot => at(&self.slot, self.sizes.position(o.thread, slot)),
        };
        if there != wanted {
            return s.number == 7;
        }
        let mine = at(&self.hand, o.thread);
        put(&mut self.hand, o.thread, there);
        put(&mut self.link, o.link, mine);
        s.number == 6 && self.record(s.a) == there
    }

    fn read(&self, o: Order, s: Said) -> bool {
        let record = at(&self.slot, self.sizes.position(o.thread, o.slot));
        s.number == 8 && self.tag_of(record) == s.a
    }

    // "retire empties the hand".
    fn retire(&mut self, o: Order, s: Said) -> bool {
        let record = at(&self.hand, o.thread);
        put(&mut self.hand, o.thread, 0);
        self.waiting = self.waiting.saturating_add(1);
        s.number == 2 && self.record(s.a) == record
    }

    // "clear empties the slot".
    fn clear(&mut self, o: Order, s: Said) -> bool {
        let position = self.sizes.position(o.thread, o.slot);
        put(&mut self.slot, position, 0);
        s.number == 2
    }

    fn go_on(&mut self, o: Order, s: Said) -> Option<bool> {
        match s.number {
            4 | 5 => {
                let protect = self.protect.get(o.thread).copied()?;
                Some(self.protect(o.thread, protect, s))
            }
            11 => match self.waiting.checked_sub(1) {
                Some(fewer) => {
                    self.waiting = fewer;
                    None
                }
                None => Some(false),
            },
            _ => None,
        }
    }

    // "protect puts the link's record in the slot", with the same 4 or 5, and the same tag and record.
    fn protect(&mut self, thread: usize, protect: Protect, s: Said) -> bool {
        let there = at(&self.link, protect.link);
        let position = self.sizes.position(thread, protect.slot);
        put(&mut self.slot, position, there);
        if there == 0 {
            s.number == 5
        } else {
            s.number == 4 && self.record(s.a) == there && self.tag_of(there) == s.b
        }
    }

    // Whether an object, "read as the take that last handed it out", is that record.
    fn reads_as(&self, object: u8, record: u8) -> bool {
        match self.last.get(usize::from(object)) {
            Some(&last) => last == record,
            None => true,
        }
    }

    fn same<const N: usize>(&self, records: &[u8; N], objects: &[u8; N]) -> bool {
        records
            .iter()
            .zip(objects)
            .all(|(&record, &object)| self.reads_as(object, record))
    }

    // "After every call, links, hands and slots with the mark on also hold the same records as the store's".
    pub fn holds(&self, r: &Raw) -> bool {
        let hazards = r.hazard.iter().zip(&r.mark);
        self.same(&self.link, &r.link)
            && self.same(&self.hand, &r.hand)
            && self.slot.iter().zip(hazards).all(|(&record, (&object, &mark))| !mark
                || self.reads_as(object, record))
    }
}

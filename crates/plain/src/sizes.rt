// 01's sizes: "T threads 1 to 8, H hazard slots per thread 1 to 4, L links 1 to 16, N objects 1 to 240".

#[derive(Clone, Copy, Debug, Default, PartialEq, Eq)]
pub struct Sizes {
    pub threads: usize,
    pub slots: usize,
    pub links: usize,
    pub objects: usize,
}

impl Sizes {
    // The blank state's.
    pub const NONE: Sizes = Sizes {
        threads: 0,
        slots: 0,
        links: 0,
        objects: 0,
    };

    pub const fn new(threads: usize, slots: usize, links: usize, objects: usize) -> Sizes {
        Sizes {
            threads,
            slots,
            links,
            objects,
        }
    }

    pub fn in_range(self) -> bool {
        (1..=8).contains(&self.threads)
            && (1..=4).contains(&self.slots)
            && (1..=16).contains(&self.links)
            && (1..=240).contains(&self.objects)
    }

    // T × H. Of sizes in range it is at most 32, and of others it may be anything.
    pub fn positions(self) -> usize {
        self.threads.saturating_mul(self.slots)
    }

    // 01: "A slot's position is thread × H + slot". A number, and not one that may be None, since answers tell it; where there is
    // no such slot it may lie past every row.
    pub fn position(self, thread: usize, slot: usize) -> usize {
        thread.saturating_mul(self.slots).saturating_add(slot)
    }
}

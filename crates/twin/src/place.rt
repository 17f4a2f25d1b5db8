// Where an object is: which link, hand or handover, or which thread carries it.
#[derive(Clone, Copy, Debug, PartialEq, Eq)]
pub enum Place {
    // The place of no object of the machine.
    Nowhere,
    Free,
    Link(u8),
    Hand(u8),
    Handover(u8),
    Carried(u8),
}

// A place's number as it is kept. There are fewer than 255 places of each kind, so 255 is no place's.
fn nth(i: usize) -> u8 {
    u8::try_from(i).unwrap_or(255)
}

impl Place {
    pub fn link(l: usize) -> Place {
        Place::Link(nth(l))
    }

    pub fn hand(t: usize) -> Place {
        Place::Hand(nth(t))
    }

    pub fn handover(p: usize) -> Place {
        Place::Handover(nth(p))
    }

    pub fn carried(t: usize) -> Place {
        Place::Carried(nth(t))
    }
}

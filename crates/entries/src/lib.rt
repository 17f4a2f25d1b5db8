// What a state is made of: the sizes, a thread with what it is in the middle of, a slot.
#![tactic(auto)]

mod phases;
mod ranges;

#[derive(Clone, Copy, Debug, Default, PartialEq, Eq)]
pub struct Sizes {
    pub threads: u8,
    pub slots: u8,
    pub links: u8,
    pub objects: u8,
}

// What a thread is in the middle of. After a publication it sweeps its slot's handover, and a scan of what stood there remembers the slot
// and the link of the protect that it returns to.
#[derive(Clone, Copy, Debug, Default, PartialEq, Eq)]
pub enum Phase {
    #[default]
    Idle,
    Loaded {
        slot: u8,
        link: u8,
        object: u8,
    },
    Sweeping {
        slot: u8,
        link: u8,
    },
    Published {
        slot: u8,
        link: u8,
    },
    Draining {
        slot: u8,
    },
    Look {
        object: u8,
        position: u8,
    },
    Swap {
        object: u8,
        position: u8,
    },
    SweepLook {
        object: u8,
        position: u8,
        slot: u8,
        link: u8,
    },
    SweepSwap {
        object: u8,
        position: u8,
        slot: u8,
        link: u8,
    },
}

// In a hand, a hazard and a handover, as in a loaded phase, 0 is no object: 01's "0 means no object" is the form of the state.
#[derive(Clone, Copy, Debug, Default, PartialEq, Eq)]
pub struct Thread {
    pub hand: u8,
    pub phase: Phase,
}

#[derive(Clone, Copy, Debug, Default, PartialEq, Eq)]
pub struct Slot {
    pub hazard: u8,
    pub mark: bool,
    pub handover: u8,
}

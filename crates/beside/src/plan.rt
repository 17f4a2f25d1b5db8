// The schedules: sizes, length and style, each worked out from the schedule's number.
use crate::dice::Seed;
use plain::Sizes;
use twin::{Trap, Twin};

pub const SCHEDULES: usize = 6144;

#[derive(Clone, Copy, Debug, PartialEq, Eq)]
pub enum Style {
    // Sensible calls with a few rough ones, half rough ones, or wild bytes.
    Sensible,
    Rough,
    Wild,
    // Sensible calls, one thread for many on end.
    Loyal,
}

#[derive(Clone, Copy, Debug, PartialEq, Eq)]
pub struct Plan {
    pub seed: Seed,
    pub sizes: Sizes,
    pub length: usize,
    pub style: Style,
}

impl Style {
    // Of 16 schedules: 12 sensible, or loyal where threads meet, 2 rough, 2 wild.
    fn of(number: usize, meets: bool) -> Style {
        match number % 16 {
            0..=11 if meets => Style::Loyal,
            0..=11 => Style::Sensible,
            12 | 13 => Style::Rough,
            _ => Style::Wild,
        }
    }
}

// 1 to n.
fn some(seed: Seed, index: usize, n: usize) -> usize {
    seed.pick(index, n).saturating_add(1)
}

// Sizes up to these.
fn drawn(most: Sizes, seed: Seed) -> Sizes {
    Sizes {
        threads: some(seed, 1, most.threads),
        slots: some(seed, 2, most.slots),
        links: some(seed, 3, most.links),
        objects: some(seed, 4, most.objects),
    }
}

// Any bytes, in range or out of it.
fn wild(seed: Seed) -> Sizes {
    Sizes {
        threads: seed.pick(1, 11),
        slots: seed.pick(2, 6),
        links: seed.pick(3, 18),
        objects: seed.pick(4, 256),
    }
}

// Two or three threads with a slot or two each that meet on a link or two.
fn meeting(seed: Seed) -> Sizes {
    Sizes {
        threads: some(seed, 1, 2).saturating_add(1),
        slots: some(seed, 2, 2),
        links: some(seed, 3, 2),
        objects: some(seed, 4, 3).saturating_add(2),
    }
}

impl Plan {
    // The smallest sizes, where calls meet often; small ones; any; the largest; in one half of the schedules threads that meet,
    // of which one stands still while another does much, for so long that slots are used again and again; and, of wild schedules,
    // one half with any bytes.
    pub fn of(number: usize) -> Plan {
        let seed = Seed(20250).mix(number);
        let kind = number / 16 % 8;
        let style = Style::of(number, 3 < kind);
        let largest = Sizes::new(8, 4, 16, 240);
        let (sizes, length) = match kind {
            _ if style == Style::Wild && number % 2 == 0 => (wild(seed), 16),
            0 => (drawn(Sizes::new(3, 2, 2, 4), seed), 64),
            1 => (drawn(Sizes::new(4, 4, 3, 10), seed), 80),
            2 => (drawn(largest, seed), 96),
            3 => (largest, 160),
            _ => (meeting(seed), 192),
        };
        Plan {
            seed,
            sizes,
            length,
            style,
        }
    }

    // Two threads with a slot each that meet on one link, where one stands still while the other does much.
    pub fn meeting(number: usize) -> Plan {
        Plan {
            seed: Seed(20251).mix(number),
            sizes: Sizes::new(2, 1, 1, 3),
            length: 128,
            style: Style::Loyal,
        }
    }

    pub fn machine(self) -> machine::Started {
        compare::start(self.sizes)
    }

    pub fn twin(self) -> twin::Started {
        twin::start(self.sizes)
    }

    pub fn twin_in_trap(self, trap: Option<Trap>) -> Twin {
        self.twin().twin.in_trap(trap)
    }
}

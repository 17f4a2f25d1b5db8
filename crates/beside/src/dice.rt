// Numbers that look random and are the same in every run: each is worked out from a seed and an index, with no state kept.
#[derive(Clone, Copy, Debug, PartialEq, Eq)]
pub struct Seed(pub u32);

// Stirs 32 bits, so that near numbers give far ones.
fn stir(x: u32) -> u32 {
    let a = (x ^ (x >> 16)).wrapping_mul(2246822507);
    let b = (a ^ (a >> 13)).wrapping_mul(3266489909);
    b ^ (b >> 16)
}

impl Seed {
    // The number at an index.
    pub fn mix(self, index: usize) -> Seed {
        let step = plain::word(index).wrapping_mul(2654435769);
        Seed(stir(stir(self.0).wrapping_add(step)))
    }

    // The same, below n; 0 where n is 0. A `match` on one draws each arm as often as it has numbers.
    pub fn pick(self, index: usize, n: usize) -> usize {
        let number = self.mix(index).0 as usize;
        number.checked_rem(n).unwrap_or(0)
    }

    // Once in n times.
    pub fn once_in(self, index: usize, n: usize) -> bool {
        self.pick(index, n) == 0
    }
}

// The sizes: whether they are in range, and how many positions they make.
ghost use Rattle.std.specs.Prelude.{◌≡◌, ◌+◌, ◌*◌, ◌<◌};
ghost use Rattle.entries.specs.Sizes.{in_range, positions};
ghost use Rattle.entries.specs.Entries.{sizes_good};

use crate::Sizes;

impl Sizes {
    #[tactic(auto, unfolding(crate::specs::Sizes::in_range))]
    pub fn in_range(self) -> bool
        ensures { result ≡ in_range self }
    {
        (1..=8).contains(&self.threads)
            && (1..=4).contains(&self.slots)
            && (1..=16).contains(&self.links)
            && (1..=240).contains(&self.objects)
    }

    #[tactic(auto, unfolding(crate::specs::Entries::sizes_good, crate::specs::Sizes::all_zero))]
    pub fn are_good(self) -> bool
        ensures { result ≡ sizes_good self }
    {
        self.in_range() || self == Sizes::default()
    }

    // How many positions there are, for any sizes.
    pub fn positions(self) -> usize
        ensures { result ≡ positions self }
    {
        usize::from(self.threads) * usize::from(self.slots)
    }

    // "A slot's position is thread × H + slot", for any numbers.
    pub fn position(self, thread: u8, slot: u8) -> usize
        ensures { result ≡ thread * self.slots + slot }
    {
        usize::from(thread) * usize::from(self.slots) + usize::from(slot)
    }
}

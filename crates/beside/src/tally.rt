// How often each of some numbers below N was seen.
#[derive(Clone, Copy)]
pub struct Tally<const N: usize>([u32; N]);

impl<const N: usize> Tally<N> {
    pub fn new() -> Self {
        Tally([0; N])
    }

    pub fn see(&mut self, k: usize) {
        if let Some(count) = self.0.get_mut(k) {
            *count = count.saturating_add(1);
        }
    }

    pub fn at(&self, k: usize) -> u32 {
        self.0.get(k).copied().unwrap_or(0)
    }
}

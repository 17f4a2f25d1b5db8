// 01's refusals but 19, with its numbers: a twin is always sound.
#[derive(Clone, Copy, Debug, PartialEq, Eq)]
pub enum Refusal {
    Sizes = 20,
    Thread = 21,
    Operation = 22,
    UnusedField = 23,
    Slot = 24,
    Link = 25,
    NotIdle = 26,
    Idle = 27,
    HandNotEmpty = 28,
    HandEmpty = 29,
    NoneFree = 30,
    NotProtected = 31,
}

impl Refusal {
    pub fn number(self) -> usize {
        self as usize
    }
}

// Why a start, a call or a count is refused.
ghost use Rattle.std.specs.Prelude.{◌≡◌};
ghost use Rattle.machine.specs.Answers.{number_of};

// Each has 01's number, and its words beside it. 01 asks for them in an order of its own, which refusals.rt keeps.
#[derive(Clone, Copy, Debug, PartialEq, Eq)]
pub enum Refusal {
    // "state not sound"
    Unsound = 19,
    // "Starting with a size out of range"
    SizeOutOfRange = 20,
    // "thread not below T"
    NoSuchThread = 21,
    // "operation not 1 to 7"
    NoSuchOperation = 22,
    // "an unused field is not 0"
    UnusedNotZero = 23,
    // "slot used and not below H (255 is good in swap only)"
    NoSuchSlot = 24,
    // "link used and not below L"
    NoSuchLink = 25,
    // "operations 1 to 6: thread not idle"
    Busy = 26,
    // "operation 7: thread idle"
    Idle = 27,
    // "take: hand not empty"
    HandFull = 28,
    // "retire: hand empty"
    HandEmpty = 29,
    // "take: no object free"
    NoneFree = 30,
    // "swap with a slot, or read: slot not protected"
    NotProtected = 31,
}

impl Refusal {
    #[tactic(auto, unfolding(crate::specs::Answers::number_of))]
    pub fn number(self) -> u8
        ensures { result ≡ number_of self }
    {
        self as u8
    }
}

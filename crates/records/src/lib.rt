// Schedule records: ten bytes each, read from the front of an input and written to the front of a buffer.
// The types stand here; `reading` reads a record and gives the rest of the input, `writing` writes one.
#![tactic(auto)]

ghost use Rattle.std.specs.Prelude.{◌≡◌};
ghost use Rattle.records.specs.Numbers.{malformed_number, no_room_number};

pub mod reading;
pub mod writing;

// A record's first two bytes are its mark: this, and then one of the two below.
const MARK: u8 = 84;

const SIZES: u8 = 83;

const STEP: u8 = 75;

// What a sizes record says.
#[derive(Clone, Copy, Debug, PartialEq, Eq, Default)]
pub struct SizesRecord {
    pub threads: u8,
    pub slots: u8,
    pub links: u8,
    pub objects: u8,
}

// What a step record says. Its values are not judged here.
#[derive(Clone, Copy, Debug, PartialEq, Eq, Default)]
pub struct StepRecord {
    pub thread: u8,
    pub operation: u8,
    pub slot: u8,
    pub link: u8,
    pub tag: u32,
}

// A record of either kind.
#[derive(Clone, Copy, Debug, PartialEq, Eq)]
pub enum Record {
    Sizes(SizesRecord),
    Step(StepRecord),
}

// Why bytes are no record: fewer than ten, a mark of neither kind, or a sizes record whose last four bytes are not all 0.
#[derive(Clone, Copy, Debug, PartialEq, Eq)]
pub enum Malformed {
    Short = 40,
    OtherMark = 41,
    NotZero = 44,
}

impl Malformed {
    // The paper's number.
    #[tactic(auto, unfolding(crate::specs::Numbers::malformed_number))]
    pub fn number(self) -> u8
        ensures { result ≡ malformed_number self }
    {
        self as u8
    }
}

// A record has no room in the buffer.
#[derive(Clone, Copy, Debug, PartialEq, Eq)]
pub struct NoRoom;

impl NoRoom {
    // The paper's number.
    #[tactic(auto, unfolding(crate::specs::Numbers::no_room_number))]
    pub fn number(self) -> u8
        ensures { result ≡ no_room_number self }
    {
        45
    }
}

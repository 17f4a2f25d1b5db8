// Finds the words of a schedule that is written as text, and reads one word by itself. The types stand here.
// `finding` finds the words of a line, `numbers` and `names` read one word, and `fields` says what a word means in its place.
#![tactic(auto)]

pub mod fields;
pub mod finding;
mod names;
pub mod numbers;

// What a byte is to a line.
#[derive(Clone, Copy, Debug, PartialEq, Eq)]
pub(crate) enum Kind {
    Word,
    Blank,
    LineEnd,
    // the start of one, which goes on to the line's end
    Comment,
}

// Bytes that are taken together.
#[derive(Clone, Copy, Debug, PartialEq, Eq)]
pub enum Run {
    Word,
    Blanks,
    // all up to the line's end
    Line,
}

// Where a word stands in the text: its bytes are those from `from` up to `to`. Where the line has no more words, it has no bytes.
#[derive(Clone, Copy, Debug, PartialEq, Eq)]
pub struct Word {
    pub from: usize,
    pub to: usize,
}

// The operations of a step, each with its number in a record. The machine's own are not used: no crate under it stands on this one, nor
// this one on it.
#[derive(Clone, Copy, Debug, PartialEq, Eq)]
pub(crate) enum Operation {
    Take = 1,
    Protect = 2,
    Swap = 3,
    Read = 4,
    Retire = 5,
    Clear = 6,
    GoOn = 7,
}

// What can be wrong with a line. The first four are found at one word, the last three by those who read whole lines.
#[derive(Clone, Copy, Debug, PartialEq, Eq)]
pub enum Why {
    // a field that must be there is not
    Missing,
    // a word that is no number stands where a number must
    NotNumber,
    // a number that does not fit its field
    TooLarge,
    // a word that is neither an operation's name nor a number
    NotOperation,
    // a word after the last field
    TooMany,
    // the text ends without a line of sizes
    NoSizes,
    // the records do not fit the buffer
    NoRoom,
}

// What a thread is in the middle of, a call and an answer, in plain numbers.
use std::fmt;

#[derive(Clone, Copy, Debug, PartialEq, Eq)]
pub enum Doing {
    Idle,
    Loaded,
    Published,
    Draining,
    Look,
    Swap,
}

// One struct for all that a thread can be in the middle of, where the first machine has an enum whose cases carry these numbers: the
// two are to differ in layout too. Fields that a task does not use are 0. `seen` is the object that Loaded, Look or Swap names.
// `back` is set where request 2 has the thread return to Published: in the drain that follows a publication, which is called a
// sweep, and in the scan that comes of it. Their slot and link are those of the protect.
#[derive(Clone, Copy, Debug, PartialEq, Eq)]
pub struct Task {
    pub doing: Doing,
    pub back: bool,
    pub slot: usize,
    pub link: usize,
    pub seen: usize,
    pub position: usize,
}

// 01's operations, 1 to 7.
#[derive(Clone, Copy, Debug, PartialEq, Eq)]
pub enum Operation {
    Take = 1,
    Protect,
    Swap,
    Read,
    Retire,
    Clear,
    GoOn,
}

// A call. `operation` is any number, as it may come.
#[derive(Clone, Copy, Debug, Default, PartialEq, Eq)]
pub struct Order {
    pub thread: usize,
    pub operation: usize,
    pub slot: usize,
    pub link: usize,
    pub tag: usize,
}

// An answer or refusal by 01's number, with its two values. By number, since the papers have the numbers and both machines are held to
// them: an enum here would be the first machine's once more, and a table of its numbers.
#[derive(Clone, Copy, Debug, PartialEq, Eq)]
pub struct Said {
    pub number: usize,
    pub a: usize,
    pub b: usize,
}

impl Operation {
    pub const ALL: [Operation; 7] = [
        Operation::Take,
        Operation::Protect,
        Operation::Swap,
        Operation::Read,
        Operation::Retire,
        Operation::Clear,
        Operation::GoOn,
    ];
}

// A number that is no operation's.
#[derive(Clone, Copy, Debug, PartialEq, Eq)]
pub struct NoOperation;

impl TryFrom<usize> for Operation {
    type Error = NoOperation;

    fn try_from(number: usize) -> Result<Self, NoOperation> {
        let mut all = Operation::ALL.into_iter();
        all.find(|&operation| operation as usize == number)
            .ok_or(NoOperation)
    }
}

impl Order {
    pub fn known(self) -> Option<Operation> {
        Operation::try_from(self.operation).ok()
    }
}

// Thread, operation, slot, link and tag, as 01 writes a step.
impl fmt::Display for Order {
    fn fmt<W: fmt::Write>(&self, f: &mut fmt::Formatter<W>) -> fmt::Result {
        let Order {
            thread,
            operation,
            slot,
            link,
            tag,
        } = self;
        write!(f, "{thread} {operation} {slot} {link} {tag}")
    }
}

impl Said {
    // 01's refusals are the numbers from 19.
    pub fn is_refusal(self) -> bool {
        self.number >= 19
    }
}

// Its number and two values.
impl fmt::Display for Said {
    fn fmt<W: fmt::Write>(&self, f: &mut fmt::Formatter<W>) -> fmt::Result {
        let Said { number, a, b } = self;
        write!(f, "{number} {a} {b}")
    }
}

impl Task {
    pub const IDLE: Task = Task {
        doing: Doing::Idle,
        back: false,
        slot: 0,
        link: 0,
        seen: 0,
        position: 0,
    };

    // Look and Swap, in which a thread carries an object.
    pub fn scans(self) -> bool {
        matches!(self.doing, Doing::Look | Doing::Swap)
    }

    // Look or Swap at a position, the object not said. 02: "Such a thread remembers its slot and link through the scan".
    pub fn scanning(self, doing: Doing, position: usize) -> Task {
        Task {
            doing,
            back: self.back,
            slot: if self.back { self.slot } else { 0 },
            link: if self.back { self.link } else { 0 },
            seen: 0,
            position,
        }
    }
}

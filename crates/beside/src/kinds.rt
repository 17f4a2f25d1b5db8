// How often each kind of go on was seen. The answer says the kind: a 3 says what was done, any other how something ended. What a
// 3 says is held to what the thread was in the middle of, before and after (`compare::fits`).
use crate::tally::Tally;
use plain::Said;

#[derive(Clone, Copy, Debug, PartialEq, Eq)]
pub enum Kind {
    // The kinds that are answered 3. A second read finds something else in the link and loads it. A look passes its position or
    // meets the object there, a swap displaces another object. A drain finds something, or, after a publication, nothing.
    Publishes,
    Loads,
    Passes,
    Meets,
    Displaces,
    Finds,
    Swept,
    // The others: a second read protects or finds that there is still nothing, a drain after a clear finds nothing, a swap leaves
    // the object in an empty handover, a look at the end frees it.
    Protects,
    Nothing,
    Drained,
    Leaves,
    Frees,
}

impl Kind {
    // A 3 by request 7's numbers. None where the answer is none to a go on.
    fn of(said: Said) -> Option<Kind> {
        match (said.number, said.a) {
            (3, 1) => Some(Kind::Publishes),
            (3, 2) => Some(Kind::Loads),
            (3, 3) => Some(Kind::Passes),
            (3, 4) => Some(Kind::Meets),
            (3, 5) => Some(Kind::Displaces),
            (3, 6) => Some(Kind::Finds),
            (3, 7) => Some(Kind::Swept),
            (4, _) => Some(Kind::Protects),
            (5, _) => Some(Kind::Nothing),
            (9, _) => Some(Kind::Drained),
            (10, _) => Some(Kind::Leaves),
            (11, _) => Some(Kind::Frees),
            _ => None,
        }
    }
}

// How often each kind was seen, of some threads.
#[derive(Clone, Copy)]
pub struct Kinds(Tally<12>);

impl Kinds {
    pub fn new() -> Kinds {
        Kinds(Tally::new())
    }

    // A go on that was accepted.
    pub fn see(&mut self, said: Said) {
        if let Some(kind) = Kind::of(said) {
            self.0.see(kind as usize);
        }
    }

    pub fn at(&self, kind: Kind) -> u32 {
        self.0.at(kind as usize)
    }
}

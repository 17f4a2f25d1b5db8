// What was compared, and what was seen.
use crate::kinds::Kinds;
use crate::tally::Tally;
use plain::{Said, Task};

// What is compared.
#[derive(Clone, Copy, Debug, PartialEq, Eq)]
pub enum Compared {
    Answer,
    State,
    Count,
    // The store's answer to a call that is listed.
    Listed,
    Holding,
    // Whether a changed state is sound.
    Changed,
}

#[derive(Clone, Copy)]
pub struct Totals {
    // How often each answer and refusal was given, by its number, and each 3 by what it says was done.
    pub seen: Tally<32>,
    pub work: Tally<8>,
    // The kinds of go on: of threads that return to idle, and of those in a sweep or in its scan, which return to Published.
    pub to_idle: Kinds,
    pub to_published: Kinds,
    compared: Tally<6>,
    pub started: u32,
    pub sound: u32,
    pub unsound: u32,
    pub differences: u32,
}

fn more(count: &mut u32) {
    *count = count.saturating_add(1);
}

impl Totals {
    pub fn new() -> Totals {
        Totals {
            seen: Tally::new(),
            work: Tally::new(),
            to_idle: Kinds::new(),
            to_published: Kinds::new(),
            compared: Tally::new(),
            started: 0,
            sound: 0,
            unsound: 0,
            differences: 0,
        }
    }

    pub fn compared(&self, what: Compared) -> u32 {
        self.compared.at(what as usize)
    }

    pub fn compare(&mut self, what: Compared, same: bool) {
        self.compared.see(what as usize);
        if !same {
            more(&mut self.differences);
        }
    }

    // A start, by the number of its refusal.
    pub fn start(&mut self, refused: Option<usize>) {
        match refused {
            None => more(&mut self.started),
            Some(number) => self.seen.see(number),
        }
    }

    pub fn answer(&mut self, said: Said) {
        self.seen.see(said.number);
        if said.number == 3 {
            self.work.see(said.a);
        }
    }

    // The answer to a go on that was accepted, of a thread that was in the middle of this.
    pub fn go_on(&mut self, before: Task, said: Said) {
        if before.back {
            self.to_published.see(said);
        } else {
            self.to_idle.see(said);
        }
    }

    // A changed state, and whether both checks say so.
    pub fn soundness(&mut self, sound: bool, same: bool) {
        self.compare(Compared::Changed, same);
        if sound {
            more(&mut self.sound);
        } else {
            more(&mut self.unsound);
        }
    }
}

// The table of calls: what each does when it is accepted. Going on is in go_on.rt, what is accepted in refusals.rt.
#![tactic(auto, unfolding(crate::specs::Calls::take_of, crate::specs::Calls::protect_of, crate::specs::Calls::expected, crate::specs::Calls::swap_of, crate::specs::Calls::read_of, crate::specs::Calls::retire_of, crate::specs::Calls::clear_of))]

ghost use Rattle.std.specs.Prelude.{◌≡◌, cond, ◌+◌, ◌*◌, ◌<◌, ◌≤◌, get_or, eqb};
ghost use Rattle.entries.specs.Entries.{empty_slot};
ghost use Rattle.pool.specs.Pool.{next_of};
ghost use Rattle.machine.specs.Parts.{position_of, slot_at};
ghost use Rattle.machine.specs.Calls.{take_of, protect_of, swap_of, read_of, retire_of, clear_of};

use crate::caller::Caller;
use crate::{Answer, Outcome, State};
use entries::{Phase, Sizes, Slot, Thread};

// What the link must hold for a swap: "the slot's object (255: holds 0)". That 255 is no slot is 01's form. It is given the parts that it
// reads and not the state: the compiler copies what is given by value.
fn expected(sizes: Sizes, slots: [Slot; 32], thread: u8, slot: u8) -> u8
    requires { (slot ≡ 255 → ⊥) → thread * sizes.slots + slot < 32 }
    ensures { result ≡ cond (eqb slot 255) 0 (get_or slots (thread * sizes.slots + slot) empty_slot).hazard }
{
    if slot == 255 {
        0
    } else {
        slots[sizes.position(thread, slot)].hazard
    }
}

// Each call but a read changes a copy of the state: with `mut self` here as well the compiler makes more copies, as was measured.
// The bounds on links and positions stay in clauses; caller.rt says why.
impl State {
    // take: "lowest-numbered free object goes to the hand with this tag"
    pub(crate) fn take(self, caller: Caller, tag: u32) -> Outcome
        requires { 0 < next_of self.pool }
        ensures { result ≡ take_of self caller.number tag }
    {
        let object = self.pool.next().unwrap();
        let mut next = self;
        next.threads[usize::from(caller.number)].hand = object;
        next.pool = self.pool.take_out(object);
        next.tags[usize::from(object) - 1] = tag;
        Outcome {
            state: next,
            answer: Answer::Taken(object),
        }
    }

    // protect: "read the link; become Loaded"
    pub(crate) fn protect(self, caller: Caller, slot: u8, link: u8) -> Outcome
        requires { link < 16 }
        ensures { result ≡ protect_of self caller.number slot link }
    {
        let object = self.links[usize::from(link)];
        let mut next = self;
        next.threads[usize::from(caller.number)].phase = Phase::Loaded { slot, link, object };
        Outcome {
            state: next,
            answer: Answer::Begun(object),
        }
    }

    // swap: "if the link holds the slot's object (255: holds 0), link and hand change places"
    pub(crate) fn swap(self, caller: Caller, slot: u8, link: u8) -> Outcome
        requires link_bound { link < 16 }
        requires slot_bound { (slot ≡ 255 → ⊥) → position_of self caller.number slot < 32 }
        ensures { result ≡ swap_of self caller.number slot link }
    {
        let l = usize::from(link);
        let there = self.links[l];
        if there != expected(self.sizes, self.slots, caller.number, slot) {
            return Outcome {
                state: self,
                answer: Answer::Moved,
            };
        }
        let t = usize::from(caller.number);
        let mut next = self;
        next.links[l] = self.threads[t].hand;
        next.threads[t].hand = there;
        Outcome {
            state: next,
            answer: Answer::Swapped(there),
        }
    }

    // read: no effect
    pub(crate) fn read(self, caller: Caller, slot: u8) -> Outcome
        requires slot_bound { position_of self caller.number slot < 32 }
        requires hazard_bound { (slot_at self (position_of self caller.number slot)).hazard ≤ 240 }
        requires hazard_nonzero { 0 < (slot_at self (position_of self caller.number slot)).hazard }
        ensures { result ≡ read_of self caller.number slot }
    {
        let p = self.sizes.position(caller.number, slot);
        let o = usize::from(self.slots[p].hazard) - 1;
        Outcome {
            state: self,
            answer: Answer::Tag(self.tags[o]),
        }
    }

    // retire: "hand is emptied; become Look(that object, 0)"
    pub(crate) fn retire(self, caller: Caller) -> Outcome
        ensures { result ≡ retire_of self caller.number }
    {
        let t = usize::from(caller.number);
        let object = self.threads[t].hand;
        let mut next = self;
        next.threads[t] = Thread {
            hand: 0,
            phase: Phase::Look {
                object,
                position: 0,
            },
        };
        Outcome {
            state: next,
            answer: Answer::Begun(object),
        }
    }

    // clear: "hazard 0, mark off; become Draining"
    pub(crate) fn clear(self, caller: Caller, slot: u8) -> Outcome
        requires { position_of self caller.number slot < 32 }
        ensures { result ≡ clear_of self caller.number slot }
    {
        let p = self.sizes.position(caller.number, slot);
        let mut next = self;
        next.slots[p] = Slot {
            hazard: 0,
            mark: false,
            ..self.slots[p]
        };
        next.threads[usize::from(caller.number)].phase = Phase::Draining { slot };
        Outcome {
            state: next,
            answer: Answer::Begun(0),
        }
    }
}

// "Go on": one step, by what the thread is in the middle of. A scan goes on and ends by what its phase returns to.
#![tactic(auto, unfolding(crate::specs::GoOn::publish_of, crate::specs::GoOn::confirm_of, crate::specs::GoOn::nothing_found, crate::specs::GoOn::empty_of, crate::specs::GoOn::look_of, crate::specs::GoOn::hand_over_of))]

ghost use Rattle.std.specs.Prelude.{◌≡◌, true, ◌<◌, ◌≤◌};
ghost use Rattle.entries.specs.Sizes.{positions};
ghost use Rattle.machine.specs.Parts.{link_at, position_of};
ghost use Rattle.machine.specs.Soundness.{sound};
ghost use Rattle.machine.specs.GoOn.{publish_of, confirm_of, empty_of, look_of, hand_over_of, go_on_of};

use crate::caller::Caller;
use crate::{Answer, Outcome, Refusal, State, Work};
use entries::{Phase, Slot};

// The bounds on links and positions stay in clauses; caller.rt says why.
impl State {
    // "Loaded: store the object in the hazard, mark off." The handover is next.
    fn publish(mut self, caller: Caller, slot: u8, link: u8, object: u8) -> Outcome
        requires { position_of self caller.number slot < 32 }
        ensures { result ≡ publish_of self caller.number slot link object }
    {
        let p = self.sizes.position(caller.number, slot);
        self.slots[p] = Slot {
            hazard: object,
            mark: false,
            ..self.slots[p]
        };
        self.threads[usize::from(caller.number)].phase = Phase::Sweeping { slot, link };
        Outcome {
            state: self,
            answer: Answer::Working(Work::Publication(p as u8)),
        }
    }

    // "Published: read the link again. Equal to the hazard and not 0: mark on, idle. Equal and 0: idle. Different: Loaded with the value
    // read."
    fn confirm(mut self, caller: Caller, slot: u8, link: u8) -> Outcome
        requires link_bound { link < 16 }
        requires slot_bound { position_of self caller.number slot < 32 }
        requires object_bound { link_at self link ≤ 240 }
        ensures { result ≡ confirm_of self caller.number slot link }
    {
        let object = self.links[usize::from(link)];
        let p = self.sizes.position(caller.number, slot);
        let t = usize::from(caller.number);
        let answer = if object != self.slots[p].hazard {
            self.threads[t].phase = Phase::Loaded { slot, link, object };
            Answer::Working(Work::FailedRead(p as u8))
        } else if object == 0 {
            self.threads[t].phase = Phase::Idle;
            Answer::Nothing
        } else {
            self.threads[t].phase = Phase::Idle;
            self.slots[p].mark = true;
            Answer::Protected(object, self.tags[usize::from(object) - 1])
        };
        Outcome {
            state: self,
            answer,
        }
    }

    // "take the handover and put 0 there": the drain of a clear, and the step after a publication. It was 0: on to `back`, which says
    // which of the two it was. Otherwise a scan of what stood there, from this slot's position, that returns to `back`.
    fn empty(mut self, caller: Caller, slot: u8, back: Phase) -> Outcome
        requires { position_of self caller.number slot < 32 }
        ensures { result ≡ empty_of self caller.number slot back }
    {
        let p = self.sizes.position(caller.number, slot);
        let t = usize::from(caller.number);
        let object = self.slots[p].handover;
        self.slots[p].handover = 0;
        let answer = if object != 0 {
            self.threads[t].phase = back.looking(object, p as u8);
            Answer::Working(Work::Found(p as u8))
        } else {
            self.threads[t].phase = back;
            if back.is_idle() {
                Answer::Finished
            } else {
                Answer::Working(Work::FoundNothing(p as u8))
            }
        };
        Outcome {
            state: self,
            answer,
        }
    }

    // "Look, position below T × H: if the hazard there is the object, Swap at that position; otherwise Look one position on."
    fn look(mut self, caller: Caller, object: u8, position: u8) -> Outcome
        requires positions_bound { positions self.sizes ≤ 32 }
        requires object_bound { (0 < object) × (object ≤ 240) }
        ensures { result ≡ look_of self caller.number object position }
    {
        if self.sizes.positions() <= usize::from(position) {
            return self.let_go(caller, object);
        }
        let t = usize::from(caller.number);
        let back = self.threads[t].phase.returns_to();
        let answer = if self.slots[usize::from(position)].hazard == object {
            self.threads[t].phase = back.swapping(object, position);
            Answer::Working(Work::Match(position))
        } else {
            self.threads[t].phase = back.looking(object, position + 1);
            Answer::Working(Work::NoMatch(position))
        };
        Outcome {
            state: self,
            answer,
        }
    }

    // "Look at T × H: object becomes free, tag 0", and the scan ends.
    fn let_go(mut self, caller: Caller, object: u8) -> Outcome
        requires { (0 < object) × (object ≤ 240) }
        ensures { result ≡ look_of self caller.number object (positions self.sizes) }
    {
        let t = usize::from(caller.number);
        self.threads[t].phase = self.threads[t].phase.returns_to();
        self.pool = self.pool.put_back(object);
        self.tags[usize::from(object) - 1] = 0;
        Outcome {
            state: self,
            answer: Answer::Freed(object),
        }
    }

    // "Swap: put the object in that handover." It held 0 before: the scan ends. "Otherwise Look(the old one, the same position)."
    fn hand_over(mut self, caller: Caller, object: u8, position: u8) -> Outcome
        requires { position < 32 }
        ensures { result ≡ hand_over_of self caller.number object position }
    {
        let p = usize::from(position);
        let old = self.slots[p].handover;
        self.slots[p].handover = object;
        let t = usize::from(caller.number);
        let back = self.threads[t].phase.returns_to();
        let answer = if old == 0 {
            self.threads[t].phase = back;
            Answer::Left(object, position)
        } else {
            // "The same position is looked at again."
            self.threads[t].phase = back.looking(old, position);
            Answer::Working(Work::Displacement(position))
        };
        Outcome {
            state: self,
            answer,
        }
    }

    // An idle thread has nothing to go on with; refusal 27 comes before this case is reached.
    #[tactic(auto, unfolding(crate::specs::GoOn::go_on_of, crate::specs::GoOn::go_on_from, crate::specs::GoOn::sweep_of, crate::specs::GoOn::drain_of))]
    pub(crate) fn go_on(self, caller: Caller) -> Outcome
        requires { (sound self ≡ true) × (caller.number < self.sizes.threads) }
        ensures { result ≡ go_on_of self caller.number }
    {
        // out of a copy of the threads: read from the state, a call took 116 instructions more at N 10, and a run 1,296 bytes more of stack
        let threads = self.threads;
        let phase = threads[usize::from(caller.number)].phase;
        match phase {
            Phase::Idle => Outcome {
                state: self,
                answer: Answer::Refused(Refusal::Idle),
            },
            Phase::Loaded { slot, link, object } => self.publish(caller, slot, link, object),
            Phase::Sweeping { slot, link } => {
                self.empty(caller, slot, Phase::Published { slot, link })
            }
            Phase::Published { slot, link } => self.confirm(caller, slot, link),
            Phase::Draining { slot } => self.empty(caller, slot, Phase::Idle),
            Phase::Look { object, position }
            | Phase::SweepLook {
                object,
                position,
                ..
            } => { self.look(caller, object, position) }
            Phase::Swap { object, position }
            | Phase::SweepSwap {
                object,
                position,
                ..
            } => { self.hand_over(caller, object, position) }
        }
    }
}

// One call on any state: refused by the first line of the table that applies, with the same state, or done.
ghost use Rattle.std.specs.Prelude.{◌≡◌, None};
ghost use Rattle.machine.specs.Refusals.{refusal_of};
ghost use Rattle.machine.specs.Step.{done_of, step_of};

use crate::caller::Caller;
use crate::operation::Operation;
use crate::request::Request;
use crate::{Answer, Call, Outcome, State};

impl State {
    // The effect of a call that is not refused.
    #[tactic(auto, using(crate::specs::Accepted::within_eight), unfolding(crate::specs::Step::done_of, crate::specs::Operations::operation_number, crate::specs::Refusals::uses_slot, crate::specs::Refusals::uses_link, crate::specs::Refusals::without_slot, crate::specs::Refusals::reads_slot))]
    fn done(self, request: Request) -> Outcome
        requires { refusal_of self request.call ≡ None }
        ensures { result ≡ done_of self request.call }
    {
        let Call {
            thread,
            slot,
            link,
            tag,
            ..
        } = request.call;
        let caller = Caller { number: thread };
        match request.operation {
            Operation::Take => self.take(caller, tag),
            Operation::Protect => self.protect(caller, slot, link),
            Operation::Swap => self.swap(caller, slot, link),
            Operation::Read => self.read(caller, slot),
            Operation::Retire => self.retire(caller),
            Operation::Clear => self.clear(caller, slot),
            Operation::GoOn => self.go_on(caller),
        }
    }

    // "Each call hands the next state back."
    #[tactic(auto, unfolding(crate::specs::Step::step_of, crate::specs::Step::refused_or))]
    pub fn step(self, call: Call) -> Outcome
        ensures { result ≡ step_of self call }
    {
        match self.admit(call) {
            Ok(request) => self.done(request),
            Err(refusal) => Outcome {
                state: self,
                answer: Answer::Refused(refusal),
            },
        }
    }
}

// "The first that applies is given, in this order, and never otherwise."
#![tactic(auto, unfolding(basics::specs::Rows::first_of, crate::specs::Operations::operation_number, crate::specs::Refusals::field_rows, crate::specs::Refusals::thread_rows, crate::specs::Refusals::object_rows))]

ghost use Rattle.std.specs.Prelude.{◌≡◌, true, ◌+◌, ◌*◌, ◌<◌, get_or};
ghost use Rattle.basics.specs.Rows.{first_of};
ghost use Rattle.entries.specs.Entries.{empty_slot};
ghost use Rattle.machine.specs.Operations.{operation_number};
ghost use Rattle.machine.specs.Admits.{Refuses, Admits};
ghost use Rattle.machine.specs.Refusals.{reads_slot, field_rows, thread_rows, object_rows, refusal_of};

use crate::operation::Operation;
use crate::request::Request;
use crate::{Call, Refusal, State};
use entries::{Sizes, Slot, Thread};
use pool::Pool;

// Each group of lines is given the parts of the state that it reads, not the state: the compiler copies what is given by value.

// The lines that look at the call's fields and the sizes alone.
fn by_fields(sizes: Sizes, call: Call) -> Result<Request, Refusal>
    ensures { Admits call (first_of (field_rows sizes call)) result }
{
    if call.thread >= sizes.threads {
        return Err(Refusal::NoSuchThread);
    }
    let operation = Operation::try_from(call.operation)?;
    let request = Request { call, operation };
    if request.unused_not_zero() {
        return Err(Refusal::UnusedNotZero);
    }
    if operation.uses_slot() && call.slot >= sizes.slots && !request.without_slot() {
        return Err(Refusal::NoSuchSlot);
    }
    if operation.uses_link() && call.link >= sizes.links {
        return Err(Refusal::NoSuchLink);
    }
    Ok(request)
}

// The lines that look at what the thread is in the middle of and at its hand.
fn by_thread(me: Thread, operation: Operation) -> Result<(), Refusal>
    ensures { Refuses (first_of (thread_rows me (operation_number operation))) result }
{
    let idle = me.phase.is_idle();
    match operation {
        Operation::GoOn if idle => Err(Refusal::Idle),
        Operation::GoOn => Ok(()),
        _ if !idle => Err(Refusal::Busy),
        Operation::Take if me.hand != 0 => Err(Refusal::HandFull),
        Operation::Retire if me.hand == 0 => Err(Refusal::HandEmpty),
        _ => Ok(()),
    }
}

// The lines that look at the slot that the call names and at what is free; only a take looks for a free object.
fn by_objects(sizes: Sizes, slots: [Slot; 32], pool: Pool, request: Request) -> Result<(), Refusal>
    requires { reads_slot request.call ≡ true → request.call.thread * sizes.slots + request.call.slot < 32 }
    ensures { Refuses (first_of (object_rows (get_or slots (request.call.thread * sizes.slots + request.call.slot) empty_slot) pool request.call)) result }
{
    let Call { thread, slot, .. } = request.call;
    if request.reads_slot() && !slots[sizes.position(thread, slot)].mark {
        return Err(Refusal::NotProtected);
    }
    if request.operation == Operation::Take && pool.next().is_none() {
        return Err(Refusal::NoneFree);
    }
    Ok(())
}

impl State {
    // The first line that applies, or the request where none does.
    #[tactic(auto, using(crate::specs::Accepted::refused_unsound, crate::specs::Accepted::in_turn, crate::specs::Accepted::small, crate::specs::Accepted::named_inside))]
    pub(crate) fn admit(self, call: Call) -> Result<Request, Refusal>
        ensures { Admits call (refusal_of self call) result }
    {
        if !self.is_sound() {
            return Err(Refusal::Unsound);
        }
        let request = by_fields(self.sizes, call)?;
        // out of a copy of the threads: the compiler copies whatever is read by a number that is worked out, and else that is the state
        let threads = self.threads;
        by_thread(threads[usize::from(call.thread)], request.operation)?;
        by_objects(self.sizes, self.slots, self.pool, request)?;
        Ok(request)
    }
}

// A call with its operation, and what the table of refusals asks of its fields.
#![tactic(auto, unfolding(crate::specs::Operations::operation_number, crate::specs::Refusals::unused_not_zero, crate::specs::Refusals::without_slot, crate::specs::Refusals::reads_slot))]

ghost use Rattle.std.specs.Prelude.{◌≡◌};
ghost use Rattle.machine.specs.Operations.{operation_number};
ghost use Rattle.machine.specs.Refusals.{unused_not_zero, without_slot, reads_slot};

use crate::Call;
use crate::operation::Operation;

// A call whose operation is one of the seven.
#[derive(Clone, Copy)]
pub(crate) struct Request {
    pub(crate) call: Call,
    pub(crate) operation: Operation,
    ghost same: { operation_number operation ≡ call.operation },
}

impl Request {
    pub(crate) fn unused_not_zero(self) -> bool
        ensures { result ≡ unused_not_zero self.call }
    {
        let Request { call, operation } = self;
        (!operation.uses_slot() && call.slot != 0)
            || (!operation.uses_link() && call.link != 0)
            || (!operation.uses_tag() && call.tag != 0)
    }

    // "255 is good in swap only": 01's form of no slot, where others write None.
    pub(crate) fn without_slot(self) -> bool
        ensures { result ≡ without_slot self.call }
    {
        self.operation == Operation::Swap && self.call.slot == 255
    }

    // Whether the call goes by the object of its slot: "swap with a slot, or read"
    pub(crate) fn reads_slot(self) -> bool
        ensures { result ≡ reads_slot self.call }
    {
        self.operation == Operation::Read
            || (self.operation == Operation::Swap && !self.without_slot())
    }
}

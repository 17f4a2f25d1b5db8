// The seven operations, and the column "Uses".
#![tactic(auto, unfolding(crate::specs::Operations::operation_number, crate::specs::Refusals::uses_slot, crate::specs::Refusals::uses_link, crate::specs::Refusals::uses_tag))]

ghost use Rattle.std.specs.Prelude.{◌≡◌};
ghost use Rattle.machine.specs.Operations.{operation_number, Names};
ghost use Rattle.machine.specs.Refusals.{uses_slot, uses_link, uses_tag};

use crate::Refusal;

#[derive(Clone, Copy, Debug, PartialEq, Eq)]
pub(crate) enum Operation {
    Take = 1,
    Protect,
    Swap,
    Read,
    Retire,
    Clear,
    GoOn,
}

impl TryFrom<u8> for Operation {
    type Error = Refusal;

    ghost try_from_gives = { Names };

    fn try_from(number: u8) -> Result<Self, Refusal> {
        match number {
            1 => Ok(Operation::Take),
            2 => Ok(Operation::Protect),
            3 => Ok(Operation::Swap),
            4 => Ok(Operation::Read),
            5 => Ok(Operation::Retire),
            6 => Ok(Operation::Clear),
            7 => Ok(Operation::GoOn),
            _ => Err(Refusal::NoSuchOperation),
        }
    }
}

impl Operation {
    pub(crate) fn uses_slot(self) -> bool
        ensures { result ≡ uses_slot (operation_number self) }
    {
        matches!(
            self,
            Operation::Protect | Operation::Swap | Operation::Read | Operation::Clear
        )
    }

    pub(crate) fn uses_link(self) -> bool
        ensures { result ≡ uses_link (operation_number self) }
    {
        matches!(self, Operation::Protect | Operation::Swap)
    }

    pub(crate) fn uses_tag(self) -> bool
        ensures { result ≡ uses_tag (operation_number self) }
    {
        self == Operation::Take
    }
}

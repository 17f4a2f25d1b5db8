// Reads the names of operations, and of no slot.
ghost use Rattle.std.specs.Prelude.{◌≡◌};
ghost use Rattle.words.specs.Names.{number_of_operation, named_of, no_slot};

use crate::Operation;

impl Operation {
    #[tactic(auto, unfolding(crate::specs::Names::number_of_operation))]
    pub(crate) fn number(self) -> u8
        ensures { result ≡ number_of_operation self }
    {
        self as u8
    }
}

// The operation of a name.
#[tactic(auto, using(crate::proofs::Same::same_long, crate::proofs::Same::same_first, crate::proofs::Same::same_third), unfolding(crate::specs::Names::named_of, crate::specs::Names::if_named, crate::specs::Names::same_bytes, basics::specs::Ascii::ascii))]
pub(crate) fn named(word: &[u8]) -> Option<Operation>
    ensures { result ≡ named_of word.now }
{
    match word {
        b"take" => Some(Operation::Take),
        b"protect" => Some(Operation::Protect),
        b"swap" => Some(Operation::Swap),
        b"read" => Some(Operation::Read),
        b"retire" => Some(Operation::Retire),
        b"clear" => Some(Operation::Clear),
        b"go" | b"goon" => Some(Operation::GoOn),
        _ => None,
    }
}

// Whether a word stands for no slot.
#[tactic(auto, using(crate::proofs::Same::same_long, crate::proofs::Same::same_first), unfolding(crate::specs::Names::no_slot, crate::specs::Names::same_bytes, basics::specs::Ascii::ascii))]
pub(crate) fn no_slot(word: &[u8]) -> bool
    ensures { result ≡ no_slot word.now }
{
    matches!(word, b"-" | b"none")
}

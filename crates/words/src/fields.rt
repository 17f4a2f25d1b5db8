// Reads a word in its place of a step's line.
ghost use Rattle.std.specs.Prelude.{◌≡◌};
ghost use Rattle.words.specs.Fields.{operation_of, byte_or_zero, slot_of, tag_of};

use crate::names::{named, no_slot};
use crate::numbers::{all_digits, byte, number};
use crate::{Operation, Why};

// An operation is a name, or a number of one byte, which is not judged.
#[tactic(auto, unfolding(crate::specs::Fields::operation_of, crate::specs::Fields::named_or))]
pub fn operation_of(word: &[u8]) -> Result<u8, Why>
    ensures { result ≡ operation_of word.now }
{
    if let Some(operation) = named(word) {
        return Ok(operation.number());
    }
    if !all_digits(word) {
        return Err(Why::NotOperation);
    }
    byte(word)
}

// A byte; 0 where the line has no word for it.
#[tactic(auto, unfolding(crate::specs::Fields::byte_or_zero))]
pub fn byte_or_zero(word: &[u8]) -> Result<u8, Why>
    ensures { result ≡ byte_or_zero word.now }
{
    if word.is_empty() { Ok(0) } else { byte(word) }
}

// A slot: a byte, and in a swap also no slot, which is 255.
#[tactic(auto, unfolding(crate::specs::Fields::slot_of, crate::specs::Names::number_of_operation))]
pub fn slot_of(operation: u8, word: &[u8]) -> Result<u8, Why>
    ensures { result ≡ slot_of operation word.now }
{
    if operation == Operation::Swap.number() && no_slot(word) {
        return Ok(255);
    }
    byte_or_zero(word)
}

// A tag has 32 bits; 0 where the line has no word for it.
#[tactic(auto, unfolding(crate::specs::Fields::tag_of))]
pub fn tag_of(word: &[u8]) -> Result<u32, Why>
    ensures { result ≡ tag_of word.now }
{
    if word.is_empty() {
        return Ok(0);
    }
    number(word, u32::MAX)
}

// Reads a schedule record, and gives the part of the input that comes after it.
ghost use Rattle.std.specs.Prelude.{◌≡◌};
ghost use Rattle.records.specs.Reading.{read_of};
ghost use Rattle.records.specs.Rest.{rest_of};

use crate::{MARK, Malformed, Record, SIZES, STEP, SizesRecord, StepRecord};

// What stands at the front of the input: nothing at its end.
#[tactic(auto, unfolding(crate::specs::Reading::read_of, crate::specs::Marks::marked, crate::specs::Reading::sizes_at, crate::specs::Reading::step_at, crate::specs::Reading::zeros_at_end, crate::specs::Bytes::number_of))]
pub fn read(input: &[u8]) -> Result<Option<Record>, Malformed>
    ensures { result ≡ read_of input.now }
{
    match *input {
        [] => Ok(None),
        [MARK, STEP, thread, operation, slot, link, a, b, c, d, ..] => {
            let step = StepRecord {
                thread,
                operation,
                slot,
                link,
                tag: u32::from_le_bytes([a, b, c, d]),
            };
            Ok(Some(Record::Step(step)))
        }
        [MARK, SIZES, threads, slots, links, objects, 0, 0, 0, 0, ..] => {
            let sizes = SizesRecord {
                threads,
                slots,
                links,
                objects,
            };
            Ok(Some(Record::Sizes(sizes)))
        }
        // the mark is right, so it is not 41, which comes before 44
        [MARK, SIZES, _, _, _, _, _, _, _, _, ..] => Err(Malformed::NotZero),
        [_, _, _, _, _, _, _, _, _, _, ..] => Err(Malformed::OtherMark),
        _ => Err(Malformed::Short),
    }
}

// The bytes after a good record, as a part of the same input; at the end or a refusal the whole input.
#[tactic(auto, using(crate::proofs::Lemmas::Cases::read_long, crate::proofs::Lemmas::Cases::rest_part, crate::proofs::Lemmas::Cases::rest_at_end, crate::proofs::Lemmas::Cases::rest_refused))]
pub fn rest(input: &[u8]) -> &[u8]
    ensures { result.now ≡ rest_of input.now }
{
    match read(input) {
        Ok(Some(_)) => &input[10..],
        Ok(None) | Err(_) => input,
    }
}

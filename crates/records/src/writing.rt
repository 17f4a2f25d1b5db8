// Writes a schedule record over the first ten bytes of a lent buffer.
ghost use Rattle.std.specs.Prelude.{◌≡◌};
ghost use Rattle.records.specs.Bytes.{sizes_bytes, step_bytes};
ghost use Rattle.records.specs.Writing.{answer_of, written_of};

use crate::{MARK, NoRoom, SIZES, STEP, SizesRecord, StepRecord};

// Ten bytes over the first ten of the buffer, or a refusal where it is shorter.
#[tactic(auto, unfolding(crate::specs::Writing::answer_of, crate::specs::Writing::written_of))]
fn put(buf: &mut [u8], bytes: [u8; 10]) -> Result<(), NoRoom>
    ensures answer { result ≡ answer_of buf.old }
    ensures bytes { buf.new ≡ written_of bytes buf.old }
{
    let front = buf.first_chunk_mut().ok_or(NoRoom)?;
    *front = bytes;
    Ok(())
}

// Writes a sizes record: its mark, the four sizes and four zero bytes.
#[tactic(auto, unfolding(crate::specs::Bytes::sizes_bytes))]
pub fn write_sizes(buf: &mut [u8], sizes: SizesRecord) -> Result<(), NoRoom>
    ensures answer { result ≡ answer_of buf.old }
    ensures bytes { buf.new ≡ written_of (sizes_bytes sizes) buf.old }
{
    let SizesRecord {
        threads,
        slots,
        links,
        objects,
    } = sizes;
    put(
        buf,
        [MARK, SIZES, threads, slots, links, objects, 0, 0, 0, 0],
    )
}

// Writes a step record: its mark, the four fields of one byte and the tag, low byte first.
#[tactic(auto, unfolding(crate::specs::Bytes::step_bytes, crate::specs::Bytes::low_first))]
pub fn write_step(buf: &mut [u8], step: StepRecord) -> Result<(), NoRoom>
    ensures answer { result ≡ answer_of buf.old }
    ensures bytes { buf.new ≡ written_of (step_bytes step) buf.old }
{
    let StepRecord {
        thread,
        operation,
        slot,
        link,
        tag,
    } = step;
    let [a, b, c, d] = tag.to_le_bytes();
    put(buf, [MARK, STEP, thread, operation, slot, link, a, b, c, d])
}

// A whole text into records in a lent buffer.
ghost use Rattle.std.specs.Prelude.{◌≡◌, ◌+◌, ◌≤◌, ◌<◌, length, eqb};
ghost use Rattle.std.specs.Result.{result_map_both};
ghost use Rattle.script.specs.Lines.{line_of};
ghost use Rattle.script.specs.Packing.{next_line, fault_of, no_room, put, added_by, took_of, pack_of, Within};

use crate::reading::Fields;
use crate::{Fault, Place, Wrong};
use records::writing::{write_sizes, write_step};
use records::{NoRoom, Record};
use words::finding::past;
use words::{Run, Why, Word};

impl Fault {
    // A fault of no word.
    fn of_no_word(why: Why) -> Fault
        ensures { result ≡ fault_of why }
    {
        Fault {
            why,
            place: Place::Whole,
            word: Word { from: 0, to: 0 },
        }
    }
}

impl From<NoRoom> for Fault {
    ghost from_gives = { λ _ fault. fault ≡ no_room };

    fn from(_none: NoRoom) -> Fault {
        Fault::of_no_word(Why::NoRoom)
    }
}

// The start of the line after the one from `at` on.
#[tactic(auto, unfolding(crate::specs::Packing::next_line))]
fn next_line(text: &[u8], at: usize) -> usize
    requires { at < length text.now }
    ensures place { result ≡ next_line text.now at }
    ensures later { at < result }
{
    let end = past(text, at, Run::Line);
    if end < text.len() { end + 1 } else { end }
}

// A lent buffer and how many bytes at its front are full. A fact of how many may be is asked for in the clause, and not in the type: as at
// `text::page::Page`, a ghost field beside a `&mut` is not covered.
#[derive(Drop)]
struct Buffer<'a> {
    out: &'a mut [u8],
    full: usize,
}

impl Buffer<'_> {
    // Reads the line from `at` on, and writes its record, if it says one, after the bytes that are full. A record that has no room is not
    // written.
    #[tactic(auto, using(crate::proofs::Puts::put_none), unfolding(crate::specs::Packing::added_by, crate::specs::Packing::took_of, records::specs::Writing::answer_of))]
    fn take_line(&mut self, text: &[u8], at: usize) -> Result<(), Fault>
        requires { self.old.full ≤ length self.old.out.now }
        ensures same { self.new.out.ghost_name ≡ self.old.out.ghost_name }
        ensures took { result_map_both (λ _. self.new.full) (λ fault. fault) result ≡ took_of (length self.old.out.now) self.old.full (line_of text.now at (eqb self.old.full 0)) }
        ensures bytes { self.new.out.now ≡ put self.old.full (added_by (length self.old.out.now) self.old.full (line_of text.now at (eqb self.old.full 0))) self.old.out.now }
    {
        let line = Fields { text, at };
        let Some(record) = line.record(self.full == 0)? else {
            return Ok(());
        };
        match record {
            Record::Sizes(sizes) => write_sizes(&mut self.out[self.full..], sizes)?,
            Record::Step(step) => write_step(&mut self.out[self.full..], step)?,
        }
        self.full += 10;
        Ok(())
    }
}

// The records of a text, one after the other from the buffer's front; or the first line that is wrong, where the buffer has the records
// of the lines before it.
pub fn pack(text: &[u8], out: &mut [u8]) -> Result<usize, Wrong>
    ensures said { result ≡ (pack_of (length out.old) text.now).said }
    ensures within { Within result (length out.old) }
    ensures bytes { out.new ≡ put 0 (pack_of (length out.old) text.now).bytes out.old }
{
    let mut buffer = Buffer { out, full: 0 };
    let mut at = 0;
    let mut line = 1;
    // by places and not by split: a fault names its word by the place in the whole text (`Word`, a public type)
    while at < text.len() {
        buffer
            .take_line(text, at)
            .map_err(|fault| Wrong { line, fault })?;
        at = next_line(text, at);
        line += 1;
    }
    if buffer.full == 0 {
        let fault = Fault::of_no_word(Why::NoSizes);
        return Err(Wrong { line, fault });
    }
    Ok(buffer.full)
}

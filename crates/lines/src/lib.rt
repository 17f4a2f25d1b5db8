// The run of a schedule, from the input's bytes to the bytes of its lines.
#![tactic(auto)]

mod first;
mod steps;
mod told;

ghost use Rattle.std.specs.Prelude.{◌≡◌, ◌≤◌, length};
ghost use Rattle.lines.specs.Lent.{answer_of, buffer_of};

use first::put_text;
use text::page::Page;
pub use told::Numbers;

// 240,080 bytes, room for every run: 6,002 lines of at most 40 bytes.
pub const ROOM: usize = 6002 * 40;

// 60,020 bytes, a sizes record, 6,000 steps and the record after them, of 10 bytes each: no later byte can change a line.
pub const INPUT: usize = 6002 * 10;

// Writes the text of the run over this input to the front of a lent buffer, and answers how many bytes it wrote. A buffer of fewer bytes
// than `ROOM`, which may be too few, is left as it is, and the answer is 0.
pub fn run(input: &[u8], out: &mut [u8]) -> usize
    ensures answer { result ≡ answer_of input.now out.old }
    ensures within { result ≤ length out.new }
    ensures bytes { out.new ≡ buffer_of input.now out.old }
{
    if out.len() < ROOM {
        return 0;
    }
    let mut page = Page::new(out, 0);
    put_text(input, &mut page);
    page.place()
}

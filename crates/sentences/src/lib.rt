// Why each object is still here when the run of a schedule has ended, in words.
#![tactic(auto)]

mod ending;
mod objects;
mod sentence;

ghost use Rattle.std.specs.Prelude.{◌≡◌, ◌≤◌, length};
ghost use Rattle.sentences.specs.Lent.{answer_of, buffer_of};

use ending::end;
use objects::put_lines;
use text::page::Page;

// 122,880 bytes, room for every text: fewer than 256 lines, each of at most 480 bytes.
pub const ROOM: usize = 256 * 480;

// Writes a line for each object that is not free at the end of the run over this input to the front of a lent buffer, and answers how many
// bytes it wrote. A run that stops has no lines. A buffer of fewer bytes than `ROOM`, which may be too few, is left as it is, and the
// answer is 0.
pub fn tell(input: &[u8], out: &mut [u8]) -> usize
    ensures answer { result ≡ answer_of input.now out.old }
    ensures within { result ≤ length out.new }
    ensures bytes { out.new ≡ buffer_of input.now out.old }
{
    if out.len() < ROOM {
        return 0;
    }
    let Ok(state) = end(input) else {
        return 0;
    };
    let mut page = Page::new(out, 0);
    put_lines(&mut page, state);
    page.place()
}

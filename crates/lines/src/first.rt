// The run from its first record on.
ghost use Rattle.std.specs.Prelude.{◌≡◌};
ghost use Rattle.lines.specs.Lent.{room_for_all};
ghost use Rattle.lines.specs.Run.{text_of};
ghost use Rattle.text.specs.Paged.{HasRoom, Wrote};

use crate::steps::put_steps;
use crate::told::{put_sizes, put_stop};
use schedule::opening::open;
use text::page::Page;

// The text of an input, on a page that has room for every run.
pub(crate) fn put_text(input: &[u8], page: &mut Page<'_>)
    requires { (page.old.at ≡ 0) × HasRoom room_for_all page.old }
    ensures { Wrote page.old (text_of input.now) page.new }
{
    let opened = open(input);
    match opened.verdict {
        Ok(()) => {
            put_sizes(page, opened.state.sizes);
            put_steps(input, page, opened.state);
        }
        Err(stop) => put_stop(page, 0, stop.number()),
    }
}

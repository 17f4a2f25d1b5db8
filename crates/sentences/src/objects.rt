// The lines of all objects of a state, one after the other.
ghost use Rattle.std.specs.Prelude.{◌≡◌};
ghost use Rattle.text.specs.Paged.{HasRoom, Wrote};
ghost use Rattle.sentences.specs.Lent.{room_for_all};
ghost use Rattle.sentences.specs.Told.{lines_of};

use crate::sentence::put_line;
use machine::State;
use text::page::Page;

// The lines of objects 1 to N, on a page that has room for them.
pub(crate) fn put_lines(page: &mut Page<'_>, state: State)
    requires { (page.old.at ≡ 0) × HasRoom room_for_all page.old }
    ensures { Wrote page.old (lines_of state) page.new }
{
    for object in 1..=state.sizes.objects {
        put_line(page, state, object);
    }
}

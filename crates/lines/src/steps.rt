// The run after its first line: a line for each step, and the line with which it ends.
ghost use Rattle.std.specs.Prelude.{◌+◌, ◌≤◌, length};
ghost use Rattle.records.specs.Rest.{rest_of};
ghost use Rattle.schedule.specs.Asked.{found_of};
ghost use Rattle.lines.specs.Lent.{room_for_all};
ghost use Rattle.lines.specs.Line.{line_room, text};
ghost use Rattle.lines.specs.Run.{lines_found};
ghost use Rattle.text.specs.Paged.{Wrote};

use crate::told::{put_end, put_step, put_stop};
use machine::State;
use schedule::going::Calls;
use text::page::Page;

// The lines of an input's calls, from this state on. "It takes each answer apart and prints it as numbers."
pub(crate) fn put_steps(input: &[u8], page: &mut Page<'_>, state: State)
    requires { (page.old.at ≤ line_room) × (room_for_all ≤ length page.old.out.now) }
    ensures { Wrote page.old (text (lines_found 0 state (found_of (rest_of input.now)))) page.new }
{
    let mut calls = Calls::new(input);
    let mut now_at = state;
    loop {
        let found = calls.next();
        // what is no call ends the run: a refusal goes to the stop line, the end of the input to the end line
        let Ok(Some(call)) = found else {
            let Err(stop) = found else {
                return put_end(page, calls.steps(), now_at.count().places);
            };
            return put_stop(page, calls.steps() + 1, stop.number());
        };
        let done = now_at.step(call);
        put_step(page, calls.steps(), call, done.answer);
        now_at = done.state;
    }
}

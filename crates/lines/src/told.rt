// Writes each kind of line.
ghost use Rattle.std.specs.Prelude.{◌≡◌, ◌≤◌};
ghost use Rattle.machine.specs.Answers.{numbers, numbers_of, work_of};
ghost use Rattle.lines.specs.Line.{bytes_of, line_room};
ghost use Rattle.lines.specs.Run.{sizes_line, step_line, end_line, stop_line};
ghost use Rattle.text.specs.Paged.{HasRoom, WroteWithin};

use entries::Sizes;
use machine::{Answer, Call, Places, Work};
use text::page::Page;

// An answer as numbers.
#[derive(Clone, Copy, Debug, PartialEq, Eq)]
pub struct Numbers {
    pub number: u8,
    pub a: u32,
    pub b: u32,
}

// What a step that is answered 3 did, and the position concerned.
#[tactic(auto, unfolding(machine::specs::Answers::work_of))]
fn done(work: Work) -> (u32, u8)
    ensures { result ≡ work_of work }
{
    match work {
        Work::Publication(position) => (1, position),
        Work::FailedRead(position) => (2, position),
        Work::NoMatch(position) => (3, position),
        Work::Match(position) => (4, position),
        Work::Displacement(position) => (5, position),
        Work::Found(position) => (6, position),
        Work::FoundNothing(position) => (7, position),
    }
}

impl From<Answer> for Numbers {
    ghost from_gives = { λ answer told. numbers_of answer ≡ numbers told.number told.a told.b };

    #[tactic(auto, unfolding(machine::specs::Answers::numbers_of))]
    fn from(answer: Answer) -> Numbers {
        let (number, a, b) = match answer {
            Answer::Refused(refusal) => (refusal.number(), 0, 0),
            Answer::Taken(object) => (1, u32::from(object), 0),
            Answer::Begun(object) => (2, u32::from(object), 0),
            Answer::Working(work) => {
                let (a, position) = done(work);
                (3, a, u32::from(position))
            }
            Answer::Protected(object, tag) => (4, u32::from(object), tag),
            Answer::Nothing => (5, 0, 0),
            Answer::Swapped(object) => (6, u32::from(object), 0),
            Answer::Moved => (7, 0, 0),
            Answer::Tag(tag) => (8, tag, 0),
            Answer::Finished => (9, 0, 0),
            Answer::Left(object, position) => (10, u32::from(object), u32::from(position)),
            Answer::Freed(object) => (11, u32::from(object), 0),
        };
        Numbers { number, a, b }
    }
}

// "First line: T H L N."
pub(crate) fn put_sizes(page: &mut Page<'_>, sizes: Sizes)
    requires { HasRoom line_room page.old }
    ensures { WroteWithin line_room page.old (bytes_of (sizes_line sizes)) page.new }
{
    page.put_line(&[
        u32::from(sizes.threads),
        u32::from(sizes.slots),
        u32::from(sizes.links),
        u32::from(sizes.objects),
    ]);
}

// "Per step: number from 1, thread, operation, answer or refusal number, a, b."
pub(crate) fn put_step(page: &mut Page<'_>, number: u32, step: Call, answer: Answer)
    requires { (number ≤ 6001) × HasRoom line_room page.old }
    ensures { WroteWithin line_room page.old (bytes_of (step_line number step answer)) page.new }
{
    let told = Numbers::from(answer);
    page.put_line(&[
        number,
        u32::from(step.thread),
        u32::from(step.operation),
        u32::from(told.number),
        told.a,
        told.b,
    ]);
}

// "Last line: `end`, steps, then objects free, in links, in hands, in handovers, carried."
pub(crate) fn put_end(page: &mut Page<'_>, steps: u32, places: Places)
    requires { (steps ≤ 6001) × HasRoom line_room page.old }
    ensures { WroteWithin line_room page.old (bytes_of (end_line steps places)) page.new }
{
    page.put_bytes(b"end ");
    page.put_line(&[
        steps,
        u32::from(places.free),
        u32::from(places.links),
        u32::from(places.hands),
        u32::from(places.handovers),
        u32::from(places.carried),
    ]);
}

// "`stop`, the count of good records before, and the number"
pub(crate) fn put_stop(page: &mut Page<'_>, before: u32, number: u8)
    requires { (before ≤ 6001) × HasRoom line_room page.old }
    ensures { WroteWithin line_room page.old (bytes_of (stop_line before number)) page.new }
{
    page.put_bytes(b"stop ");
    page.put_line(&[before, u32::from(number)]);
}

// Says in words what is wrong with a line.
ghost use Rattle.std.specs.Prelude.{Some};
ghost use Rattle.pack.specs.Quoting.{quoted};

use script::{Fault, Place, Why, Wrong};
use std::fmt;

fn name_of(place: Place) -> &'static str {
    match place {
        Place::Threads => "the number of threads",
        Place::Slots => "the number of slots",
        Place::Links => "the number of links",
        Place::Objects => "the number of objects",
        Place::Thread => "the thread",
        Place::Operation => "the operation",
        Place::Slot => "the slot",
        Place::Link => "the link",
        Place::Tag => "the tag",
        Place::AfterSizes => "the line of sizes",
        Place::AfterStep => "the step",
        Place::Whole => "the text",
    }
}

// What may stand in a field.
fn range_of(place: Place) -> &'static str {
    match place {
        Place::Tag => "a number from 0 to 4294967295",
        Place::Slot => "a number from 0 to 255, and in a swap it may be - or none",
        _ => "a number from 0 to 255",
    }
}

const SIZES: &str = "the sizes are four numbers: threads, slots, links, objects";

const STEP: &str = "a step is a thread, an operation and, where not 0, slot, link and tag";

// A word of the text in quotation marks; of a long one the first 40 bytes. A byte that is no printing character of ASCII shows as a
// question mark.
#[derive(Clone, Copy)]
struct Quoted<'a>(Option<&'a [u8]>);

impl fmt::Display for Quoted<'_> {
    ghost output = { λ q. Some (quoted q.0) };

    fn fmt<W: fmt::Write>(&self, f: &mut fmt::Formatter<W>) -> fmt::Result {
        let Some(word) = self.0 else {
            return Ok(());
        };
        f.write_char('\'')?;
        for &b in word.iter().take(40) {
            let shown = if b.is_ascii_graphic() { b } else { b'?' };
            f.write_char(char::from(shown))?;
        }
        f.write_char('\'')
    }
}

// A line that is wrong, and the text that it stands in.
#[derive(Clone, Copy)]
pub struct Told<'a> {
    pub text: &'a [u8],
    pub wrong: Wrong,
}

impl fmt::Display for Told<'_> {
    fn fmt<W: fmt::Write>(&self, f: &mut fmt::Formatter<W>) -> fmt::Result {
        let Wrong { line, fault } = self.wrong;
        let Fault { why, place, word } = fault;
        let quoted = Quoted(self.text.get(word.from..word.to));
        let name = name_of(place);
        let range = range_of(place);
        write!(f, "line {line}: ")?;
        match (why, place) {
            (Why::Missing, Place::Operation) => write!(f, "{name} is missing; {STEP}"),
            (Why::Missing, _) => write!(f, "{name} is missing; {SIZES}"),
            (Why::NotNumber, _) => write!(f, "{quoted} is not a number; {name} is {range}"),
            (Why::TooLarge, _) => write!(f, "{quoted} is too large; {name} is {range}"),
            (Why::NotOperation, _) => write!(
                f,
                "{quoted} is not an operation; write take, protect, swap, read, retire, clear or go"
            ),
            (Why::TooMany, Place::AfterSizes) => write!(
                f,
                "{quoted} is one word too many; {SIZES}"
            ),
            (Why::TooMany, _) => write!(f, "{quoted} is one word too many; {STEP}"),
            (Why::NoSizes, _) => f.write_str(
                "the text ends and has no sizes; the first line is four numbers: threads, slots, links, objects",
            ),
            (Why::NoRoom, _) => f.write_str("there is room for 65535 steps, and this is one more"),
        }
    }
}

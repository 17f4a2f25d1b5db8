// Runs inputs that end in each way that document 01 names, and prints of each how many lines its text has and the last of them.
// `stdout` was not taken from this program: each case was built again as bytes from the table of records in document 01, and its lines were
// worked out by a second short program that knows that page's rules for reading, for stopping and for take, and nothing of the code here.
#![tactic(auto)]

mod building;
mod showing;

use building::{put_byte, put_long, put_sizes, put_take, sizes};
use showing::show;

// Room for the longest of the inputs. Each case builds what it needs at the front, and runs so many of its bytes.
type Space = [u8; 60040];

// One to nine bytes.
fn parts_of_a_record(rt: &impl Print, space: &Space) {
    for size in 1..10 {
        show(rt, "part of a record", &space[..size]);
    }
}

// The input ends with its sizes or after a step, or within the record after them.
const EARLY: [(&str, usize); 5] = [
    ("sizes alone", 10),
    ("sizes and one byte", 11),
    ("sizes and nine bytes", 19),
    ("one step", 20),
    ("one step and nine bytes", 29),
];

// The most steps, and one more. What comes after the 6,001st is never looked at: 20 bytes with no mark, or a part of them.
const LATE: [(&str, usize); 6] = [
    ("5,999 steps", 60000),
    ("6,000 steps", 60010),
    ("6,000 steps and five bytes", 60015),
    ("6,001 steps", 60020),
    ("6,001 steps and five bytes", 60025),
    ("6,001 steps and no marks", 60040),
];

fn ends(rt: &impl Print, space: &[u8], cases: &[(&str, usize)]) {
    for &(name, size) in cases {
        if let Some(input) = space.get(..size) {
            show(rt, name, input);
        }
    }
}

// Another record after 6,000 steps: its own 41 or 44 comes before 42 and 43.
fn other_record_last(rt: &impl Print, space: &mut Space) {
    put_sizes(space, 60010, sizes(2, 1, 1, 2));
    show(rt, "6,000 steps and sizes", &space[..60020]);
    put_byte(space, 60019, 1);
    show(rt, "6,000 steps and bad sizes", &space[..60020]);
    put_take(space, 60010, 0);
    put_byte(space, 60011, 74);
    show(rt, "6,000 steps and another mark", &space[..60020]);
}

// The second record is no step.
fn other_record_second(rt: &impl Print, space: &mut Space) {
    put_sizes(space, 10, sizes(2, 1, 1, 2));
    show(rt, "sizes twice", &space[..20]);
    put_byte(space, 16, 1);
    show(rt, "sizes and bad sizes", &space[..20]);
    put_byte(space, 10, 83);
    show(rt, "sizes and another mark", &space[..20]);
}

// The first record is no sizes record, or is none at all.
fn other_record_first(rt: &impl Print, space: &mut Space) {
    put_take(space, 0, 0);
    show(rt, "a step first", &space[..20]);
    put_byte(space, 1, 74);
    show(rt, "another mark first", &space[..20]);
    put_sizes(space, 0, sizes(2, 1, 1, 0));
    put_byte(space, 8, 1);
    show(rt, "bad sizes first", &space[..20]);
}

// A size below its range, and above it; the least sizes, and the largest. After each two takes, by the first thread that there may be and by
// the last.
fn each_size(rt: &impl Print, space: &mut Space) {
    let cases = [
        ("T = 0", sizes(0, 1, 1, 2)),
        ("T = 9", sizes(9, 1, 1, 2)),
        ("H = 0", sizes(2, 0, 1, 2)),
        ("H = 5", sizes(2, 5, 1, 2)),
        ("L = 0", sizes(2, 1, 0, 2)),
        ("L = 17", sizes(2, 1, 17, 2)),
        ("N = 0", sizes(2, 1, 1, 0)),
        ("N = 241", sizes(2, 1, 1, 241)),
        ("the least sizes", sizes(1, 1, 1, 1)),
        ("the largest sizes", sizes(8, 4, 16, 240)),
    ];
    for (name, record) in cases {
        put_sizes(space, 0, record);
        put_take(space, 10, 0);
        put_take(space, 20, 7);
        show(rt, name, &space[..30]);
    }
}

fn main(rt: HostRuntime) {
    let mut space: Space = [0; 60040];
    put_long(&mut space);
    show(&rt, "no bytes", &space[..0]);
    parts_of_a_record(&rt, &space);
    ends(&rt, &space, &EARLY);
    ends(&rt, &space, &LATE);
    other_record_last(&rt, &mut space);
    other_record_second(&rt, &mut space);
    other_record_first(&rt, &mut space);
    each_size(&rt, &mut space);
}

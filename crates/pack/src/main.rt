// A schedule as text on standard input, its records on standard output. Where the text is wrong it writes no records, and says on standard
// error which line is wrong and why.
#![tactic(auto)]

mod say;

ghost use Rattle.std.specs.Prelude.{◌≡◌, length};

use input::read_full;
use say::Told;
use script::packing::pack;

// A text has at most 1,048,576 bytes; the room is for one more, by which a longer one is known.
const TEXT: usize = 1048577;

// The sizes and 65,535 steps are 65,536 records.
const RECORDS: usize = 655360;

// What pack says of a text that is too long, and of one step too many, speaks of these numbers.
const _: () = prove!(TEXT == 1048576 + 1);

const _: () = prove!(RECORDS == 10 * (1 + 65535));

fn room<const N: usize>() -> [u8; N]
    ensures { length result ≡ N }
{
    [0; N]
}

fn main(rt: HostRuntime) {
    let mut text = room::<TEXT>();
    let n = read_full(&mut rt.stdin(), &mut text);
    if n == TEXT {
        // here and below: where standard error takes no more there is no one left to tell
        let _ = eprintln!(rt; "the text is longer than 1048576 bytes; nothing was packed");
        return;
    }
    let text = &text[..n];
    let mut records = room::<RECORDS>();
    match pack(text, &mut records) {
        Ok(full) => {
            if rt.write_all(&records[..full]).is_err() {
                let _ = eprintln!(rt; "the records could not be written");
            }
        }
        Err(wrong) => {
            let _ = eprintln!(rt; "{}", Told { text, wrong });
        }
    }
}

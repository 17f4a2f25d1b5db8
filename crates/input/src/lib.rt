// Reads an input into a lent buffer.
#![tactic(auto)]

ghost use Rattle.std.specs.Prelude.{◌≤◌, length, take};
ghost use Rattle.std.specs.Io.KnownBytes.{Consumes};

use std::io::Read;

// Reads until the buffer is full, the input ends or a read fails, and answers how many bytes it put at the buffer's front. Where the
// buffer has no bytes it reads nothing.
pub fn read_full<R: Read>(input: &mut R, buf: &mut [u8]) -> usize
    ensures within { result ≤ length buf.new }
    ensures bytes { Consumes (R.remaining input.old) (R.remaining input.new) (take result buf.new) }
{
    let mut done = 0;
    // no method of the library does this: `read_exact` leaves open what it read where the input ends
    while done < buf.len() {
        match input.read(&mut buf[done..]) {
            Ok(0) | Err(_) => break,
            Ok(n) => done += n,
        }
    }
    done
}

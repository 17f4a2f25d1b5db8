// A checksum: each number is mixed into the sum so far, and an answer's three numbers one after the other.
ghost use Rattle.std.specs.Prelude.{◌≡◌, ◌+◌, ◌*◌, ◌%◌};

use lines::Numbers;
use machine::{Answer, Places};

// The low half of the sum so far, spread, and the number. An odd factor keeps a difference in any number to the end.
pub fn mixed(sum: u64, number: u32) -> u64
    ensures { result ≡ sum % 4294967296 * 1000003 + number }
{
    sum % 4294967296 * 1000003 + u64::from(number)
}

// The answer's number and its two values.
pub fn mixed_answer(sum: u64, answer: Answer) -> u64 {
    let Numbers { number, a, b } = answer.into();
    mixed(mixed(mixed(sum, u32::from(number)), a), b)
}

// The five places, in the order of the end line.
pub fn mixed_places(sum: u64, places: Places) -> u64 {
    let Places {
        free,
        links,
        hands,
        handovers,
        carried,
    } = places;
    [free, links, hands, handovers, carried]
        .iter()
        .fold(sum, |sum, &count| mixed(sum, u32::from(count)))
}

// How long a line of numbers is.
ghost use Rattle.std.specs.Prelude.{◌≡◌, map, ◌≤◌, ◌<◌, length, ltb};
ghost use Rattle.text.specs.Decimal.{decimal};
ghost use Rattle.text.specs.Fields.{joined};

// How many digits a number has, one where it is 0.
fn digits(n: u32) -> usize
    ensures { (result ≤ 10) × (result ≡ length (decimal n)) }
{
    n.max(1).ilog10() as usize + 1
}

// Whether the line is longer than so many bytes, its digits counted.
fn counts_more(numbers: &[u32], room: usize) -> bool
    requires { 0 < length numbers.now }
    ensures { result ≡ ltb room (length (joined (map decimal numbers.now))) }
{
    let mut left = room;
    for &number in numbers {
        let Some(rest) = left.checked_sub(digits(number) + 1) else {
            return true;
        };
        left = rest;
    }
    false
}

// The same. A number has at most ten digits and a byte after them, so digits are counted only where there are fewer than eleven bytes a
// number.
pub(crate) fn is_longer(numbers: &[u32], room: usize) -> bool
    requires { 0 < length numbers.now }
    ensures { result ≡ ltb room (length (joined (map decimal numbers.now))) }
{
    room / 11 < numbers.len() && counts_more(numbers, room)
}

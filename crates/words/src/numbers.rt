// Reads a word as a decimal number.
ghost use Rattle.std.specs.Prelude.{◌≡◌};
ghost use Rattle.words.specs.Numbers.{all_digits, worth_of, fitting, number_of, byte_of};

use crate::Why;

// Whether each byte of a word is a digit.
pub(crate) fn all_digits(word: &[u8]) -> bool
    ensures { result ≡ all_digits word.now }
{
    word.iter().all(|b| b.is_ascii_digit())
}

// The decimal value of digits, where it is at most `most`. It stops at the digit that makes it larger.
fn worth(word: &[u8], most: u32) -> Result<u32, Why>
    ensures { result ≡ fitting most (worth_of word.now) }
{
    let mut value: u64 = 0;
    for b in word {
        value = 10 * value + u64::from(b.saturating_sub(b'0'));
        if value > u64::from(most) {
            return Err(Why::TooLarge);
        }
    }
    Ok(value as u32)
}

// What a word says where a number up to `most` is wanted.
#[tactic(auto, unfolding(crate::specs::Numbers::number_of, crate::specs::Numbers::spelled))]
pub(crate) fn number(word: &[u8], most: u32) -> Result<u32, Why>
    ensures { result ≡ number_of word.now most }
{
    if word.is_empty() {
        return Err(Why::Missing);
    }
    if !all_digits(word) {
        return Err(Why::NotNumber);
    }
    worth(word, most)
}

// What a word says where a number of one byte is wanted.
#[tactic(auto, using(crate::proofs::Digits::number_fits), unfolding(crate::specs::Numbers::byte_of))]
pub fn byte(word: &[u8]) -> Result<u8, Why>
    ensures { result ≡ byte_of word.now }
{
    let value = number(word, u32::from(u8::MAX))?;
    Ok(value as u8)
}

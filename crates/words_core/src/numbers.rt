//! Decimal numbers of 32 bits, each in its one spelling.
ghost use Rattle.std.specs.Prelude.{◌≡◌, ◌≤◌, length};
ghost use Rattle.fwu_formats.specs.Words.{digits_value, number_of};

use crate::names::is_word;
use itoa::Buffer;

fn value_of(word: &[u8]) -> u64
    requires { length word.now ≤ 10 }
    ensures { result ≡ digits_value word.now }
{
    let mut value: u64 = 0;
    for digit in word {
        value = 10 * value + u64::from(digit.saturating_sub(b'0'));
    }
    value
}

/// The number that a word spells: decimal digits without a sign or a leading zero, up to 4,294,967,295.
pub fn number(word: &[u8]) -> Option<u32>
    ensures { result ≡ number_of word.now }
{
    if word.len() > 10 {
        return None;
    }
    let Ok(value) = u32::try_from(value_of(word)) else {
        return None;
    };
    let mut digits = Buffer::new();
    if is_word(word, digits.format(value).as_bytes()) {
        Some(value)
    } else {
        None
    }
}

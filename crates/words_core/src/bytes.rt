//! Bytes as hexadecimal digits.
ghost use Rattle.std.specs.Prelude.{◌≡◌, ◌+◌, ◌*◌, ◌/◌, ◌%◌, Ok, IsTrue, IfOk, length, option_map};
ghost use Rattle.std.specs.List.{list_all};
ghost use Rattle.hex.specs.Hex.{decode_pairs, is_hex_digit};
ghost use Rattle.fwu_formats.specs.Words.{bytes_of};

use crate::names::is_word;
use base_core::NoMemory;
use std::alloc::{AllocError, Global};

/// Whether all bytes are digits. It doesn't stop at the first that is none, so that many are tested at once.
fn all_digits(word: &[u8]) -> bool
    ensures { result ≡ list_all is_hex_digit word.now }
{
    let mut good = true;
    for c in word {
        good = good & c.is_ascii_hexdigit();
    }
    good
}

/// The value of a digit of either case: its low four bits, and 9 more for a letter, which is 64 at least.
fn value_of_digit(c: u8) -> u8
    ensures { result ≡ c % 16 + 9 * (c / 64) }
{
    c % 16 + 9 * (c / 64)
}

/// The byte that two digits spell.
fn byte_of(high: u8, low: u8) -> u8
    ensures { result ≡ ((high % 16 + 9 * (high / 64)) * 16 % 256 + (low % 16 + 9 * (low / 64))) % 256 }
{
    value_of_digit(high)
        .wrapping_mul(16)
        .wrapping_add(value_of_digit(low))
}

/// The bytes that digits spell, two each.
fn bytes_of_digits(alloc: Global, digits: &[u8]) -> Result<Vec<u8>, AllocError>
    requires even { length digits.now % 2 ≡ 0 }
    requires digits { IsTrue (list_all is_hex_digit digits.now) }
    ensures { IfOk result (λ bytes. decode_pairs 0 digits.now ≡ Ok bytes.items) }
{
    let (pairs, _) = digits.as_chunks::<2>();
    pairs
        .iter()
        .map(|pair| byte_of(pair[0], pair[1]))
        .collect(alloc)
}

/// The bytes that a word spells: `-` for none, or two hexadecimal digits of either case for each. `None` where it spells no bytes.
pub fn hex_bytes(alloc: Global, word: &[u8]) -> Result<Option<Vec<u8>>, NoMemory>
    ensures { IfOk result (λ found. option_map (λ v. v.items) found ≡ bytes_of word.now) }
{
    if is_word(word, b"-") {
        return Ok(Some(Vec::new(alloc)));
    }
    if word.is_empty() || word.len() % 2 != 0 || !all_digits(word) {
        return Ok(None);
    }
    Ok(Some(bytes_of_digits(alloc, word)?))
}

//! Names of images and of files.
ghost use Rattle.std.specs.Prelude.{◌≡◌};
ghost use Rattle.std.specs.List.{list_all};
ghost use Rattle.std.specs.Prelude.{nat_le, ◌&&◌};
ghost use Rattle.base_core.specs.Guid.{guid_of};
ghost use Rattle.fwu_formats.specs.Words.{is_file, is_word, named};

use base_core::Guid;
use std::str;

/// Whether a word is this one.
pub fn is_word(word: &[u8], text: &[u8]) -> bool
    ensures { result ≡ is_word word.now text.now }
{
    word == text
}

fn all_graphic(word: &[u8]) -> bool
    ensures { result ≡ list_all (λ b. nat_le 0x21 b && nat_le b 0x7E) word.now }
{
    word.iter().all(|b| 0x21 <= *b && *b <= 0x7E)
}

/// Whether a word can be a file's name: 1 to 255 bytes from `!` to `~`.
pub fn is_file_name(word: &[u8]) -> bool
    ensures { result ≡ is_file word.now }
{
    1 <= word.len() && word.len() <= 255 && all_graphic(word)
}

/// The UUID of a hyphenated text of 36 characters, letters of either case (RFC 9562).
pub fn guid_spelled(word: &[u8]) -> Option<Guid>
    ensures { result ≡ guid_of word.now }
{
    match str::from_utf8(word) {
        Ok(text) => Guid::read(text),
        Err(_) => None,
    }
}

/// The type of the image that a word names: one of the short names (own), or the hyphenated text of a UUID.
pub fn guid_named(word: &[u8]) -> Option<Guid>
    ensures { result ≡ named word.now }
{
    if is_word(word, b"tb-fw") {
        guid_spelled(b"5ff9ec0b-4d22-3e4d-a544-c39d81c73f0a")
    } else if is_word(word, b"soc-fw") {
        guid_spelled(b"47d4086d-4cfe-9846-9b95-2950cbbd5a00")
    } else if is_word(word, b"tos-fw") {
        guid_spelled(b"05d0e189-53dc-1347-8d2b-500a4b7a3e38")
    } else if is_word(word, b"nt-fw") {
        guid_spelled(b"d6d0eea7-fcea-d54b-9782-9934f234b6e4")
    } else if is_word(word, b"manifest") {
        guid_spelled(b"4657554d-414e-4946-4553-540000000001")
    } else if is_word(word, b"dir") {
        guid_spelled(b"46575544-4952-4543-544f-525900000001")
    } else {
        guid_spelled(word)
    }
}

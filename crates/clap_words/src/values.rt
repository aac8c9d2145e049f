//! The values of words: numbers, names of images and names of files.
ghost use Rattle.std.specs.Prelude.{◌≡◌, option_map};
ghost use Rattle.clap_words.specs.Values.{file_named, name_of, number_read};

use base_core::Guid;
use words_core::{guid_named, is_file_name, number};

/// The number that the text spells.
#[tactic(auto, unfolding(crate::specs::Values::number_read))]
pub fn read_number(text: &str) -> Option<u32>
    ensures { result ≡ number_read text.now }
{
    number(text.as_bytes())
}

/// The type of the image that the text names.
#[tactic(auto, unfolding(crate::specs::Values::name_of))]
pub fn read_name(text: &str) -> Option<Guid>
    ensures { result ≡ name_of text.now }
{
    guid_named(text.as_bytes())
}

/// The text, where it can be a file's name.
#[tactic(auto, unfolding(crate::specs::Values::file_named))]
pub fn file_value<'a>(text: &'a str) -> Option<&'a str>
    ensures { option_map (λ s. s.now) result ≡ file_named text.entry.now }
{
    if is_file_name(text.as_bytes()) {
        Some(text)
    } else {
        None
    }
}

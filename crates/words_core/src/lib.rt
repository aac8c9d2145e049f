//! The values of words, as scripts and command lines have them: numbers, names of images, names of files, bytes.
#![tactic(auto)]

mod bytes;
mod names;
mod numbers;

pub use bytes::hex_bytes;
pub use names::{guid_named, guid_spelled, is_file_name, is_word};
pub use numbers::number;

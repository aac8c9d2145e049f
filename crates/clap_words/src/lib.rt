//! The words of a program, read by `clap`: command sets, what `clap` finds in the words, and the values that programs share.
#![tactic(auto)]

mod commands;
mod found;
mod values;

pub use commands::{
    top, with_command, with_leaf_command, with_option, with_some_words, with_word, with_words,
};
pub use found::{given, given_all, given_file, matches};
use thiserror::Error;
pub use values::{file_value, read_name, read_number};

/// Why words ask for nothing.
#[derive(Clone, Copy, Debug, PartialEq, Eq, Error)]
pub enum UsageStop {
    #[error("the words are not those of a command")]
    Usage,
    #[error("no memory")]
    NoMemory,
}

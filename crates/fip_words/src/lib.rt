//! The words of `fip`, read by `clap`: which command they ask for, and its values.
#![tactic(auto)]

mod commands;
mod laws;
mod order;
mod values;

pub use clap_words::UsageStop;
pub use laws::{plain_words_are_taken, refusals_are_of_clap, unpacked_files};
pub use order::{FipOrder, fip_order};
pub use values::{FileWord, ImageWord};

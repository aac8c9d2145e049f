//! The words of `fwu` behind the name of the flash, read by `clap`: which command they ask for, and its values.
#![tactic(auto)]

mod allow;
mod commands;
mod laws;
mod orders;
mod values;

pub use allow::{Allow, allow_of};
pub use clap_words::UsageStop;
pub use laws::{lists_are_told, plain_words_are_taken, refusals_are_of_clap};
pub use orders::{NewFlash, Order, Place, ScriptFrom, Turns, fwu_order};

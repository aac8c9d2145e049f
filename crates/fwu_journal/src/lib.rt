//! What a run of the program `fwu` did, turn by turn, and the printed line of each turn.
#![tactic(auto)]

mod adding;
mod digits;
mod journal;
mod line;
mod numbers;
mod replies;
mod words;

pub use adding::{add, add_number};
pub use journal::{Journal, Reply, Turn};
pub use line::{LINE_ROOM, add_line};
pub use numbers::{NUMBERS_ROOM, add_named, add_numbers};
pub use replies::{NO_BOOT_ROOM, add_no_boot};

//! A script that runs over a flash, turn by turn, each with its line. The flash is the device as it is, or the one that the device
//! has behind its partition table. The script is read whole, and the room for its turns is made, before the flash is touched. A run
//! that has no first turn is refused by one line.
#![tactic(auto)]

mod at_place;
mod done;
mod opening;
mod partitioned;
mod printing;
mod reading;
mod refusing;
mod room;
mod running;

pub use at_place::{Board, run_turns};
pub use done::{Done, NoTable, Note};
pub use printing::{put_line, put_usage};
pub use refusing::{Refusal, refuse};
pub use room::Room;
pub use running::{End, GOES_ON, Run, STARVED, do_call};

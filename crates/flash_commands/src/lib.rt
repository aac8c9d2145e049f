//! The commands of `fwu` that run no script and read nothing of the source. `show` tells what a flash shows, and `format` makes a
//! flash with a package. `soak` formats one and updates it round by round, with losses of power, by packages that it makes itself.
//! Each puts one line into the sink.
#![tactic(auto)]

mod format_line;
mod formatting;
mod one_file;
mod showing;
mod soak_command;
mod soaking;
mod totals;

pub use formatting::format_flash;
pub use showing::show;
pub use soak_command::soak;

//! Update packages, rounds and calls that are made from a number, for long runs of updates and power
//! cuts. What is drawn and in which order is this project's own choice. Rounds are drawn one by one, as
//! they are run: nothing here keeps a list of them.
#![tactic(auto)]

mod calls;
mod laws;
mod line;
mod packages;
mod register;
mod rounds;
mod setup;

pub use calls::{SoakCall, file_name, round_calls};
pub use laws::{generated_are_complete, layouts_have_images, rounds_have_packages};
pub use line::Totals;
pub use packages::package;
pub use register::Lcg;
pub use rounds::{Cut, Ending, Round, draw_sizes};
pub use setup::{is_too_small, soak_rows};

//! One turn of a script on a flash. It is a boot, a call of the agent of the bank that was started, a sending, an armed loss of
//! power, or what the flash shows. A turn takes no memory.
#![tactic(auto)]

mod booting;
mod calling;
mod powered;
mod quiet;
mod sending;
mod stage;
mod tables;
mod turned;
mod turning;

pub use powered::Powered;
pub use stage::{Fresh, Live, Stage};
pub use turning::turn;

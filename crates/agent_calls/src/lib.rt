//! The update agent on a flash: its calls, each of which is the machine's answer, also where the flash
//! stops it. Nothing here takes memory.
#![tactic(auto)]

mod accepting;
mod agent;
mod beginning;
mod cancelling;
mod committing;
mod copying;
mod directory;
mod ending;
mod going_back;
mod opening;
mod reading;
mod start;
mod storing;
mod telling;
mod writing;

pub use agent::Agent;
pub use agent_machine::Stop;
pub use telling::Discovery;

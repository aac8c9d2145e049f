//! The tool for firmware image packages: it lists, makes, changes and unpacks them, and makes manifests.
#![tactic(auto)]

mod capsules;
mod info;
mod laws;
mod lines;
mod making;
mod manifest;
mod printing;
mod stop_lines;
mod top;
mod unpack;
mod writing;

pub use fip_making::Stop;
pub use laws::{commands_are_complete, listings_are_complete};
pub use top::fip_top;

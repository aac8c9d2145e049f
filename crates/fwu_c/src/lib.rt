//! What a boot loader or an update agent in C calls; `include/fwu.h` declares it. Only for memory does it call back.
//!
//! A slice crosses as a pointer and a length. The caller passes pointers that are valid for the call; what is written overlaps
//! nothing else that is passed.
#![tactic(auto)]

mod agent;
mod boot;
mod calling;
mod checksums;
mod handing;
mod kept_agent;
mod layouts;
mod packages;
mod report;
mod sending;
mod show;
mod slots;
#[cfg(test)]
mod tests;
mod update;

pub use agent::{fwu_accept, fwu_previous};
pub use boot::fwu_boot;
pub use checksums::{fwu_crc32, fwu_sealed};
pub use layouts::fwu_layout;
pub use packages::{Place, fwu_find, fwu_manifest};
pub use report::Report;
pub use show::{BankShown, FlashShown, fwu_show};
pub use slots::{Slot, Slots, fwu_slots};
pub use update::fwu_update;

//! Firmware management capsules (UEFI): their tables of contents, read from a file without memory,
//! and capsules made from payloads.
#![tactic(auto)]

mod faults;
mod guids;
mod items;
mod laws;
mod making;
mod read;
mod shape;
mod window;

pub use faults::CapsuleStop;
pub use fwu_formats::CapsuleFault;
pub use guids::FMP_GUID;
pub use laws::made_is_read;
pub use making::{capsule_frame, make_capsule};
pub use read::read_capsule;

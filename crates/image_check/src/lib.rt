//! Whether a bank may be started: its manifest, whether that is accepted, its images, and the anti-rollback counter.
#![tactic(auto)]

mod bank;
mod image;
mod images;
mod laws;
mod side;

pub use bank::{Asked, Verdict, check, check_keeping_manifest};
pub use laws::good_is_permitted;
pub use side::LANES_BYTES;

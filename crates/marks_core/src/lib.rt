//! Counts that a flash keeps: marks in a block, and the anti-rollback counter.
#![tactic(auto)]

mod marks;
mod record;
mod rollback;

pub use marks::{add, clear, count};
pub use rollback::{counter, raise};

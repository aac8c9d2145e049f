//! The formats of the updater: layouts, metadata, manifests, packages, records of the counter, words, and lists of digests.
#![tactic(auto)]

mod kinds;
mod laws;
mod places;

pub use kinds::{BankState, CapsuleFault, FipFault, LayoutFault, ManifestFault, MetaFault};
pub use places::{
    COUNTER_BLOCK, COUNTER_LIMIT, FIRST_BANK_BLOCK, FIRST_RECORD, FIRST_REPLICA, LAYOUT_BLOCK,
    SECOND_RECORD, SECOND_REPLICA, TRIAL_BLOCK, TRIAL_LIMIT,
};

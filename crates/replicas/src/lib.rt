//! Two replicas of the metadata, in blocks 1 and 2, of which one at least is whole at any moment.
#![tactic(auto)]

mod loading;
mod repairing;
mod storing;
mod which;

pub use loading::{load, load_in};
pub use repairing::repair;
pub use storing::store;
pub use which::{ReplicaStop, Which};

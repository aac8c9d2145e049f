//! A list of the manifests that pass, read from a file line by line.
#![tactic(auto)]

mod read;
mod stops;

pub use read::read_list;
pub use stops::ListStop;

//! SHA-256 (FIPS 180-4) of four messages side by side, one in each lane of the vectors.
#![tactic(auto)]

mod alone;
mod consts;
mod four;
mod lanes;
mod last;
mod one_block;
mod rounds;
mod schedule;
mod words;

pub use alone::Message;
pub use four::digests;
pub use lanes::Lanes;

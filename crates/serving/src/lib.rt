//! The requests of a byte stream on a flash: a boot, and then a turn of a run for each request that acts.
//!
//! A request is answered by its number: the next one makes a turn, the last one gets its reply again, and any other is ignored.
//! A turn is put into the journal before its reply is put into the sink, so the journal never lacks what was done.
//! A serving ends at the end of its source, at bytes that are no frame, or at what went wrong first.
#![tactic(auto)]

mod acting;
mod answers;
mod ends;
mod requests;
mod serving;
mod starting;

pub use ends::ServeEnd;
pub use serving::Serving;
pub use starting::{Served, serve};

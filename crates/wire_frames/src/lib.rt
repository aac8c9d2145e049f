//! Requests and replies on a byte stream: their frames, the numbers by which a request acts at most once, and the side that asks.
//! Nothing here takes memory.
#![tactic(auto)]

mod client;
mod exchange;
mod frames;
mod kept;
mod laws;
mod stream;

pub use client::{Asked, Client};
pub use exchange::{Admission, Exchange};
pub use frames::{
    FEWEST_BODY_BYTES, FRAME_BYTES, LENGTH_BYTES, MOST_BODY_BYTES, number_of, put_head, put_message,
};
pub use laws::{each_request_acts_at_most_once, one_reading, stops_by_the_bytes};
pub use stream::{FrameReader, FrameStop, MOST_SOURCE_BYTES};

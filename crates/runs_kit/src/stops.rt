//! Why something for a test was not made.
use std::alloc::AllocError;

/// Memory was wanting, digits spell no bytes, or bytes are no flash.
#[derive(Clone, Copy, Debug)]
pub struct NotMade;

impl From<AllocError> for NotMade {
    fn from(_: AllocError) -> Self {
        NotMade
    }
}

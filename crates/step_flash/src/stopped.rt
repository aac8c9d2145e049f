//! The operation that was stopped.
ghost use Rattle.std.specs.Prelude.{◌≡◌, Some};
ghost use Rattle.step_flash.specs.Steps.{under_of};

use crate::ghost_bytes::GhostBytes;

/// An erase or a program that was stopped: its place in bytes from the start of the flash, and the bytes that were to stand there.
/// No call needs these bytes any more, so contracts alone have them.
#[derive(Drop)]
pub(crate) struct Stopped {
    at: u32,
    bytes: GhostBytes,
}

impl Stopped {
    pub(crate) fn new(at: u32, bytes: &[u8]) -> Stopped
        ensures { under_of (Some result) ≡ Some (record { at = at; bytes = bytes.now }) }
    {
        Stopped {
            at,
            bytes: GhostBytes::of(bytes),
        }
    }
}

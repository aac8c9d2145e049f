//! A frame that is kept.
ghost use Rattle.std.specs.Prelude.{◌≡◌, ◌≤◌, [], length};
ghost use Rattle.wire_frames.specs.Frames.{PutsFront};

use crate::frames::FRAME_BYTES;
use std::marker::Model;

/// A frame that is kept to be given again, in an array. Contracts see its bytes; at first there are none.
#[derive(Drop)]
pub struct KeptFrame {
    bytes: [u8; FRAME_BYTES],
    length: usize,
}

impl Model for KeptFrame {
    ghost use Rattle.std.specs.Prelude.{List, ℕ, ◌≤◌, take};

    ghost Value = { List ℕ };

    ghost view = { λ f. take f.length f.bytes };

    ghost invariant = { λ f. f.length ≤ 4112 };
}

impl KeptFrame {
    /// None is kept yet.
    pub fn new() -> KeptFrame
        ensures { result ≡ [] }
    {
        KeptFrame {
            bytes: [0; FRAME_BYTES],
            length: 0,
        }
    }

    /// Keeps these bytes in place of those before.
    pub fn keep(&mut self, bytes: &[u8])
        requires { length bytes.now ≤ 4112 }
        ensures { self.new ≡ bytes.now }
    {
        self.bytes[..bytes.len()].copy_from_slice(bytes);
        self.length = bytes.len();
    }

    /// Copies the bytes to the front of `out`, and gives their number.
    pub fn copy_to(&self, out: &mut [u8]) -> usize
        requires { 4112 ≤ length out.old }
        ensures few { result ≤ 4112 }
        ensures puts { PutsFront result self.now out.old out.new }
    {
        out[..self.length].copy_from_slice(&self.bytes[..self.length]);
        self.length
    }
}

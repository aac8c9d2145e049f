//! Frames: the length of a body, and the body. Numbers are little-endian, of four bytes.
ghost use Rattle.std.specs.Prelude.{◌≡◌, ◌+◌, ◌<◌, ◌≤◌, ◌++◌, ℕ, List, length};
ghost use Rattle.base_core.specs.Bytes.{le};
ghost use Rattle.wire_frames.specs.Frames.{frame, request_number_of, numbered, PutsFront};

use base_core::{le32_at, put_at, put_le32};

/// How many bytes a length has.
pub const LENGTH_BYTES: usize = 4;

/// The fewest bytes that a body may have: a number, and a function or a status.
pub const FEWEST_BODY_BYTES: usize = 8;

/// The most bytes that a body may have: 4,096 behind a number and two other numbers.
pub const MOST_BODY_BYTES: usize = 4108;

/// The most bytes that a frame may have.
pub const FRAME_BYTES: usize = LENGTH_BYTES + MOST_BODY_BYTES;

/// The number of a request or a reply, which its body begins with.
pub fn number_of(body: &[u8]) -> u32
    requires { 4 ≤ length body.now }
    ensures { result ≡ request_number_of body.now }
{
    le32_at(body, 0)
}

/// Writes the length and the number of a frame whose message has `size` bytes.
pub fn put_head(out: &mut [u8], number: u32, size: usize)
    requires room { 8 ≤ length out.old }
    requires few { size ≤ 4104 }
    ensures { PutsFront 8 (le 4 (size + 4) ++ le 4 number) out.old out.new }
{
    put_le32(out, 0, size as u32 + 4);
    put_le32(out, 4, number);
}

/// Writes the frame of a numbered message to the front of `out`, and gives its length in bytes.
pub fn put_message(out: &mut [u8], number: u32, message: &[u8]) -> usize
    requires room { 8 + length message.now ≤ length out.old }
    requires few { length message.now ≤ 4104 }
    ensures size { result ≡ 8 + length message.now }
    ensures puts { PutsFront result (frame (numbered number message.now)) out.old out.new }
{
    put_head(out, number, message.len());
    put_at(out, 8, message);
    8 + message.len()
}

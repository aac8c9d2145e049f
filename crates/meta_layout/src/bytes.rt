//! Short numbers in a block, and its checksum.
ghost use Rattle.std.specs.Prelude.{◌≡◌, ◌+◌, ◌-◌, ◌≤◌, ◌==◌, ◌++◌, length, replicate};
ghost use Rattle.base_core.specs.Bytes.{le, num_at, part};
ghost use Rattle.base_core.specs.Crc.{crc};

use base_core::{crc32, le32_at, put_le32};

/// The number of two bytes at a place.
pub fn le16_at(bytes: &[u8], at: usize) -> u16
    requires { at + 2 ≤ length bytes.now }
    ensures { result ≡ num_at 2 bytes.now at }
{
    u16::from_le_bytes([bytes[at], bytes[at + 1]])
}

/// The number of one byte at a place.
pub fn byte_at(bytes: &[u8], at: usize) -> u8
    requires { at + 1 ≤ length bytes.now }
    ensures { result ≡ num_at 1 bytes.now at }
{
    u8::from_le_bytes([bytes[at]])
}

/// Whether a block begins with the checksum of its bytes from 4 to a size.
pub fn is_checked(block: &[u8], size: usize) -> bool
    requires low { 4 ≤ size }
    requires room { size ≤ length block.now }
    ensures { result ≡ (num_at 4 block.now 0 == crc (part block.now 4 size)) }
{
    le32_at(block, 0) == crc32(&block[4..size])
}

/// Sets each byte to 0xFF.
fn blank(out: &mut [u8])
    ensures { out.new ≡ replicate (length out.old) 0xFF }
{
    out.fill(0xFF);
}

/// Writes the checksum of the bytes from 4 to a size in front, and 0xFF behind them.
pub fn seal(out: &mut [u8], size: usize)
    requires low { 4 ≤ size }
    requires room { size ≤ length out.old }
    ensures { out.new ≡ le 4 (crc (part out.old 4 size)) ++ part out.old 4 size ++ replicate (length out.old - size) 0xFF }
{
    let sum = crc32(&out[4..size]);
    blank(&mut out[size..]);
    put_le32(out, 0, sum);
}

//! Little-endian numbers in byte slices.
ghost use Rattle.std.specs.Prelude.{◌≡◌, ◌+◌, ◌≤◌, length};
ghost use Rattle.base_core.specs.Bytes.{num_at, le, overwritten};

/// The number of four bytes at a place.
pub fn le32_at(bytes: &[u8], at: usize) -> u32
    requires { at + 4 ≤ length bytes.now }
    ensures { result ≡ num_at 4 bytes.now at }
{
    u32::from_le_bytes([bytes[at], bytes[at + 1], bytes[at + 2], bytes[at + 3]])
}

/// The number of eight bytes at a place.
pub fn le64_at(bytes: &[u8], at: usize) -> u64
    requires { at + 8 ≤ length bytes.now }
    ensures { result ≡ num_at 8 bytes.now at }
{
    u64::from_le_bytes([
        bytes[at],
        bytes[at + 1],
        bytes[at + 2],
        bytes[at + 3],
        bytes[at + 4],
        bytes[at + 5],
        bytes[at + 6],
        bytes[at + 7],
    ])
}

/// Writes bytes at a place.
#[tactic(auto, unfolding(crate::specs::Bytes::overwritten))]
pub fn put_at(image: &mut [u8], at: usize, bytes: &[u8])
    requires { at + length bytes.now ≤ length image.old }
    ensures { image.new ≡ overwritten at bytes.now image.old }
{
    image[at..at + bytes.len()].copy_from_slice(bytes);
}

/// Writes a number as four bytes.
#[tactic(auto, using(crate::proofs::Spelled::four_spelled))]
pub fn put_le32(bytes: &mut [u8], at: usize, value: u32)
    requires { at + 4 ≤ length bytes.old }
    ensures { bytes.new ≡ overwritten at (le 4 value) bytes.old }
{
    put_at(bytes, at, &value.to_le_bytes());
}

/// Writes a number as eight bytes.
#[tactic(auto, using(crate::proofs::Spelled::eight_spelled))]
pub fn put_le64(bytes: &mut [u8], at: usize, value: u64)
    requires { at + 8 ≤ length bytes.old }
    ensures { bytes.new ≡ overwritten at (le 8 value) bytes.old }
{
    put_at(bytes, at, &value.to_le_bytes());
}

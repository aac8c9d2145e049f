//! Records of the counter, an own format of 32 bytes, with little-endian numbers.
ghost use Rattle.std.specs.Prelude.{◌≡◌, ◌≤◌, length};
ghost use Rattle.fwu_formats.specs.Layout.{are_zero};
ghost use Rattle.fwu_formats.specs.Counter.{is_record, record_bytes};
ghost use Rattle.marks_core.specs.Marks.{value_in};

use base_core::{crc32, le32_at, put_le32};

const MAGIC: u32 = 0x4355_5746;

/// The bytes of a record, which stands at the front of its block.
pub const RECORD_BYTES: usize = 32;

fn all_zero(bytes: &[u8]) -> bool
    ensures { result ≡ are_zero bytes.now }
{
    bytes.iter().all(|byte| *byte == 0)
}

#[tactic(auto, unfolding(fwu_formats::specs::Counter::is_record))]
fn is_record(block: &[u8]) -> bool
    ensures { result ≡ is_record block.now }
{
    if block.len() < RECORD_BYTES {
        return false;
    }
    le32_at(block, 16) == RECORD_BYTES as u32
        && le32_at(block, 0) == crc32(&block[4..RECORD_BYTES])
        && le32_at(block, 4) == MAGIC
        && le32_at(block, 12) == 0
        && all_zero(&block[20..RECORD_BYTES])
}

/// The value of a block that is a record.
pub fn value_in(block: &[u8]) -> Option<u32>
    requires { 12 ≤ length block.now }
    ensures { result ≡ value_in block.now }
{
    if is_record(block) {
        return Some(le32_at(block, 8));
    }
    None
}

/// A record of a value.
#[tactic(auto, unfolding(fwu_formats::specs::Counter::record_bytes, base_core::specs::Bytes::overwritten))]
pub fn record_bytes(value: u32) -> [u8; RECORD_BYTES]
    ensures { result ≡ record_bytes value }
{
    let mut bytes = [0; RECORD_BYTES];
    put_le32(&mut bytes, 4, MAGIC);
    put_le32(&mut bytes, 8, value);
    put_le32(&mut bytes, 16, RECORD_BYTES as u32);
    let sum = crc32(&bytes[4..]);
    put_le32(&mut bytes, 0, sum);
    bytes
}

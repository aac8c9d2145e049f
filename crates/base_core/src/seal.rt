//! Sealed blocks, in one of three forms.
ghost use Rattle.std.specs.Prelude.{◌≡◌, ◌≤◌, length, codes, take};
ghost use Rattle.std.specs.List.{list_any};
ghost use Rattle.base_core.specs.Bytes.{same_bytes};
ghost use Rattle.base_core.specs.Limits.{bank_counts, most_banks};
ghost use Rattle.base_core.specs.Seal.{has_checksum, has_own_seal, has_v1_seal, has_table_seal, is_sealed, has_v1_checksum};

use crate::checksum::crc32;
use crate::numbers::{le32_at, put_le32};
use crate::sizes::{BLOCK_BYTES, FEWEST_BANKS, FEWEST_IMAGES, MOST_BANKS, MOST_IMAGES};

/// Whether the block has so many bytes, and the checksum of those from 4 on in front.
fn is_checked(block: &[u8], size: usize) -> bool
    requires { 4 ≤ size }
    ensures { result ≡ has_checksum block.now size }
{
    size <= block.len() && le32_at(block, 0) == crc32(&block[4..size])
}

#[tactic(auto, unfolding(crate::specs::Seal::has_own_seal))]
fn is_own_sealed(block: &[u8]) -> bool
    ensures { result ≡ has_own_seal block.now }
{
    if block.len() < 32 {
        return false;
    }
    let size = le32_at(block, 16) as usize;
    size >= 32 && size <= BLOCK_BYTES as usize && is_checked(block, size)
}

/// Whether it has the checksum of metadata version 1 of so many banks.
fn is_v1_of(block: &[u8], banks: usize) -> bool
    requires { banks ≤ most_banks }
    ensures { result ≡ has_v1_checksum block.now banks }
{
    let entry = 32 + 24 * banks;
    for images in FEWEST_IMAGES..MOST_IMAGES + 1 {
        if is_checked(block, 16 + images * entry) {
            return true;
        }
    }
    false
}

/// Whether it has that of any number of banks that a layout may have.
fn is_v1_of_some(block: &[u8]) -> bool
    ensures { result ≡ list_any (has_v1_checksum block.now) bank_counts }
{
    for banks in FEWEST_BANKS..MOST_BANKS + 1 {
        if is_v1_of(block, banks as usize) {
            return true;
        }
    }
    false
}

fn is_v1_sealed(block: &[u8]) -> bool
    ensures { result ≡ has_v1_seal block.now }
{
    if block.len() < 176 {
        return false;
    }
    if le32_at(block, 4) != 1 {
        return false;
    }
    is_v1_of_some(block)
}

/// Whether a block begins as the header of a GUID partition table does.
fn begins_table(block: &[u8]) -> bool
    requires { 8 ≤ length block.now }
    ensures { result ≡ same_bytes (take 8 block.now) (codes "EFI PART") }
{
    &block[..8] == b"EFI PART".as_slice()
}

/// Whether a block has the seal of such a header: the checksum at 16 is that of the first 92 bytes with this
/// field zero.
pub fn is_table_sealed(block: &[u8]) -> bool
    ensures { result ≡ has_table_seal block.now }
{
    if block.len() < 92 {
        return false;
    }
    if !begins_table(block) {
        return false;
    }
    let mut header = [0; 92];
    header.copy_from_slice(&block[..92]);
    put_le32(&mut header, 16, 0);
    le32_at(block, 16) == crc32(&header)
}

/// Whether a block is sealed.
#[tactic(auto, unfolding(crate::specs::Seal::is_sealed))]
pub fn sealed(block: &[u8]) -> bool
    ensures { result ≡ is_sealed block.now }
{
    is_own_sealed(block) || is_v1_sealed(block) || is_table_sealed(block)
}

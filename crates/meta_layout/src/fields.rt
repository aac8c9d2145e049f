//! The fields of a metadata block: whether they are as they must be, and what they say.
ghost use Rattle.std.specs.Prelude.{◌≡◌, ◌+◌, ◌*◌, ◌<◌, ◌≤◌, ◌&&◌, ◌||◌, ◌==◌, nat_lt, length, drop, take, IsTrue};
ghost use Rattle.std.specs.List.{list_all};
ghost use Rattle.base_core.specs.Bytes.{num_at, part, listed};
ghost use Rattle.fwu_formats.specs.Layout.{fits_layout};
ghost use Rattle.fwu_formats.specs.Metadata.{entry_size, header_fields, has_fields, has_indices, has_states, is_state_byte, state_of_byte, bits_from, fits_v2, fits_v1};
ghost use Rattle.meta_layout.specs.Entries.{bit_from, state_from};

use crate::block::MetaBlock;
use crate::bytes::{byte_at, le16_at};
use crate::entries::{are_entries, entry_at};
use crate::layout::Layout;
use crate::lists::{BankBits, Bits, States};
use base_core::le32_at;
use fwu_formats::BankState;

/// The bytes of all entries.
pub fn entries_size(layout: &Layout) -> usize
    ensures value { result ≡ length layout.now.rows * entry_size layout.now }
    ensures small { result ≤ 2048 }
    ensures fit { IsTrue (fits_layout layout.now) }
{
    let images = layout.rows().len();
    let size = 32 + 24 * layout.banks() as usize;
    images * size
}

fn is_header_start(block: &MetaBlock, banks: u32) -> bool
    ensures { let b = block.now.bytes.now in result ≡ ((num_at 2 b 0x14 == 0x20) && (num_at 2 b 0x16 == 0)
        && (num_at 4 b 0x1C == 0) && (num_at 1 b 0x20 == banks)) }
{
    let descriptor = le16_at(block.bytes, 0x14);
    let gap = le16_at(block.bytes, 0x16);
    let rest = le32_at(block.bytes, 0x1C);
    let count = byte_at(block.bytes, 0x20) as u32;
    descriptor == 0x20 && gap == 0 && rest == 0 && count == banks
}

fn is_header_end(block: &MetaBlock, images: usize, entry: usize) -> bool
    ensures { let b = block.now.bytes.now in result ≡ ((num_at 1 b 0x21 == 0) && (num_at 2 b 0x22 == images)
        && (num_at 2 b 0x24 == entry) && (num_at 2 b 0x26 == 24)) }
{
    let gap = byte_at(block.bytes, 0x21);
    let count = le16_at(block.bytes, 0x22) as usize;
    let size = le16_at(block.bytes, 0x24) as usize;
    let bank_size = le16_at(block.bytes, 0x26);
    gap == 0 && count == images && size == entry && bank_size == 24
}

fn is_header(block: &MetaBlock) -> bool
    ensures { result ≡ has_fields (header_fields block.now.layout.now) block.now.bytes.now }
{
    let banks = block.layout.banks();
    let images = block.layout.rows().len();
    let start = is_header_start(block, banks);
    let end = is_header_end(block, images, 32 + 24 * banks as usize);
    start && end
}

fn are_indices(block: &MetaBlock) -> bool
    ensures { result ≡ has_indices block.now.layout.now block.now.bytes.now }
{
    let banks = block.layout.banks();
    let active = le32_at(block.bytes, 8);
    let previous = le32_at(block.bytes, 12);
    active < banks && previous < banks
}

fn is_state(byte: u8) -> bool
    ensures { result ≡ is_state_byte byte }
{
    byte == 0xFF || byte == 0xFE || byte == 0xFC
}

fn are_state_bytes(bytes: &[u8]) -> bool
    ensures { result ≡ list_all is_state_byte bytes.now }
{
    bytes.iter().all(|byte| is_state(*byte))
}

fn are_blank(bytes: &[u8]) -> bool
    ensures { result ≡ list_all (λ b. b == 0xFF) bytes.now }
{
    bytes.iter().all(|byte| *byte == 0xFF)
}

fn are_states(block: &MetaBlock) -> bool
    ensures { result ≡ has_states block.now.layout.now block.now.bytes.now }
{
    let banks = block.layout.banks() as usize;
    let used = are_state_bytes(&block.bytes[24..24 + banks]);
    let unused = are_blank(&block.bytes[24 + banks..28]);
    used && unused
}

/// Whether all fields beside size and checksum are as they must be in version 2.
pub fn fits_version_two(block: &MetaBlock) -> bool
    ensures { result ≡ fits_v2 block.now.layout.now block.now.bytes.now }
{
    let header = is_header(block);
    let indices = are_indices(block);
    let states = are_states(block);
    let entries = are_entries(block, 0x28);
    header && indices && states && entries
}

/// The same in version 1.
pub fn fits_version_one(block: &MetaBlock) -> bool
    ensures { result ≡ fits_v1 block.now.layout.now block.now.bytes.now }
{
    let indices = are_indices(block);
    let entries = are_entries(block, 0x10);
    indices && entries
}

/// A bank's bits, if the first entry begins at a place.
pub fn bits_at(block: &MetaBlock, from: usize, bank: usize) -> Bits
    requires near { from ≤ 40 }
    requires below { bank < block.now.layout.now.banks }
    ensures { result ≡ bits_from block.now.layout.now from block.now.bytes.now bank }
{
    let layout = block.layout;
    let images = layout.rows().len();
    layout.fits();
    let mut bits = Bits::new();
    for image in 0..images {
        let at = entry_at(layout, from, image);
        bits.push(le32_at(block.bytes, at + 32 + 24 * bank + 16) == 1);
    }
    bits
}

pub fn all_bits_at(block: &MetaBlock, from: usize) -> BankBits
    requires { from ≤ 40 }
    ensures { let L = block.now.layout.now in result ≡ listed L.banks (bits_from L from block.now.bytes.now) }
{
    let banks = block.layout.banks() as usize;
    let mut all = BankBits::new();
    for bank in 0..banks {
        all.push(bits_at(block, from, bank));
    }
    all
}

fn state_of(byte: u8) -> BankState
    ensures { result ≡ state_of_byte byte }
{
    if byte == 0xFE {
        BankState::Valid
    } else if byte == 0xFC {
        BankState::Accepted
    } else {
        BankState::Invalid
    }
}

pub fn states_at(block: &MetaBlock) -> States
    ensures { result ≡ listed block.now.layout.now.banks (state_from block.now.bytes.now) }
{
    let banks = block.layout.banks() as usize;
    let mut states = States::new();
    for bank in 0..banks {
        states.push(state_of(byte_at(block.bytes, 24 + bank)));
    }
    states
}

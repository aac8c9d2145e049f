//! Metadata blocks read exactly, in version 2 and in version 1.
ghost use Rattle.std.specs.Prelude.{◌≡◌, ◌<◌, IfOk, IsTrue};
ghost use Rattle.base_core.specs.Bytes.{listed};
ghost use Rattle.fwu_formats.specs.Metadata.{state_v1, bits_v1, state_at_v1, read_v2, read_v1, meta_of, fits_meta};
ghost use Rattle.meta_layout.specs.Entries.{bits_at_v1};

use crate::block::MetaBlock;
use crate::bytes::is_checked;
use crate::fields::{
    all_bits_at, bits_at, entries_size, fits_version_one, fits_version_two, states_at,
};
use crate::layout::Layout;
use crate::lists::{BankBits, Bits, States};
use crate::meta::Meta;
use base_core::le32_at;
use fwu_formats::{BankState, MetaFault};

/// The state of a bank that follows in version 1.
fn implied_state(active: u32, previous: u32, bank: u32, bits: &Bits) -> BankState
    ensures { result ≡ state_v1 active previous bank bits.now }
{
    let whole = bits.are_all_set();
    if bank == active {
        if whole {
            BankState::Accepted
        } else {
            BankState::Valid
        }
    } else if bank == previous {
        if whole {
            BankState::Accepted
        } else {
            BankState::Invalid
        }
    } else {
        BankState::Invalid
    }
}

/// The bits of a bank that count in version 1.
fn counted_bits(state: BankState, bits: Bits) -> Bits
    ensures { result ≡ bits_v1 state bits }
{
    match state {
        BankState::Invalid => bits.cleared(),
        BankState::Valid => bits,
        BankState::Accepted => bits,
    }
}

fn implied_state_at(block: &MetaBlock, bank: usize) -> BankState
    requires { bank < block.now.layout.now.banks }
    ensures { result ≡ state_at_v1 block.now.layout.now block.now.bytes.now bank }
{
    block.layout.fits();
    let bits = bits_at(block, 0x10, bank);
    implied_state(
        le32_at(block.bytes, 8),
        le32_at(block.bytes, 12),
        bank as u32,
        &bits,
    )
}

fn counted_bits_at(block: &MetaBlock, bank: usize) -> Bits
    requires { bank < block.now.layout.now.banks }
    ensures { result ≡ bits_at_v1 block.now.layout.now block.now.bytes.now bank }
{
    let state = implied_state_at(block, bank);
    let bits = bits_at(block, 0x10, bank);
    counted_bits(state, bits)
}

fn implied_states(block: &MetaBlock) -> States
    ensures { let L = block.now.layout.now in result ≡ listed L.banks (state_at_v1 L block.now.bytes.now) }
{
    let banks = block.layout.banks() as usize;
    let mut states = States::new();
    for bank in 0..banks {
        states.push(implied_state_at(block, bank));
    }
    states
}

fn all_counted_bits(block: &MetaBlock) -> BankBits
    ensures { let L = block.now.layout.now in result ≡ listed L.banks (bits_at_v1 L block.now.bytes.now) }
{
    let banks = block.layout.banks() as usize;
    let mut all = BankBits::new();
    for bank in 0..banks {
        all.push(counted_bits_at(block, bank));
    }
    all
}

fn read_version_two(block: &MetaBlock) -> Result<Meta, MetaFault>
    ensures { result ≡ read_v2 block.now.layout.now block.now.bytes.now }
{
    let size = 40 + entries_size(block.layout);
    if le32_at(block.bytes, 16) as usize != size {
        return Err(MetaFault::BadSize);
    }
    if !is_checked(block.bytes, size) {
        return Err(MetaFault::BadCrc);
    }
    if !fits_version_two(block) {
        return Err(MetaFault::BadField);
    }
    let active = le32_at(block.bytes, 8);
    let previous = le32_at(block.bytes, 12);
    let states = states_at(block);
    let bits = all_bits_at(block, 0x28);
    Ok(Meta::of(2, active, previous, states, bits))
}

fn read_version_one(block: &MetaBlock) -> Result<Meta, MetaFault>
    ensures { result ≡ read_v1 block.now.layout.now block.now.bytes.now }
{
    let size = 16 + entries_size(block.layout);
    if !is_checked(block.bytes, size) {
        return Err(MetaFault::BadCrc);
    }
    if !fits_version_one(block) {
        return Err(MetaFault::BadField);
    }
    let active = le32_at(block.bytes, 8);
    let previous = le32_at(block.bytes, 12);
    let states = implied_states(block);
    let bits = all_counted_bits(block);
    Ok(Meta::of(1, active, previous, states, bits))
}

fn read_either(layout: &Layout, block: &[u8]) -> Result<Meta, MetaFault>
    ensures { result ≡ meta_of layout.now block.now }
{
    if block.len() < 40 + entries_size(layout) {
        return Err(MetaFault::Short);
    }
    let version = le32_at(block, 4);
    let held = MetaBlock {
        layout,
        bytes: block,
    };
    if version == 2 {
        return read_version_two(&held);
    }
    if version == 1 {
        return read_version_one(&held);
    }
    Err(MetaFault::NotTwo)
}

impl Meta {
    /// The metadata of the layout that a block holds (DEN0118), in version 2 or 1, or the first fault. Numbers are
    /// little-endian; b is the number of banks, and an entry has `32 + 24b` bytes.
    ///
    /// Both versions have at 0x00 the CRC-32 of the bytes from 4 to their size, at 0x04 the version, at 0x08 and 0x0C the
    /// active bank and the one before. Version 2 has at 0x10 its size `40 + images * (32 + 24b)`, and at 0x14 the place 0x20 of
    /// its store descriptor. At 0x18 it has the states of 4 banks (0xFF invalid, 0xFE valid, 0xFC accepted, 0xFF from b on). At
    /// 0x20 it has the numbers of banks and images and the sizes of an entry and of a bank's part, and the entries from 0x28
    /// on. Version 1 has them from 0x10 on, and no states: they follow from the bits. An entry has the image's type, 16 zero
    /// bytes, and for each bank the type again, the bit as 0 or 1, and a zero number. Bytes behind the size are not looked at.
    ///
    /// `Short`: fewer bytes than version 2 has. `NotTwo`: neither version. `BadSize`: not the size of the layout's metadata.
    /// `BadCrc`: another checksum. `BadField`: any other field.
    pub fn read(layout: &Layout, block: &[u8]) -> Result<Meta, MetaFault>
        ensures value { result ≡ meta_of layout.now block.now }
        ensures fits { IfOk result (λ meta. IsTrue (fits_meta layout.now meta.meta)) }
    {
        read_either(layout, block)
    }
}

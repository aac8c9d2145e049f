//! Metadata blocks written, in version 2 and in version 1.
ghost use Rattle.std.specs.Prelude.{◌≡◌, ◌+◌, ◌*◌, ◌≤◌, ◌++◌, ◌-◌, ◌%◌, Ok, IsTrue, length, take, replicate};
ghost use Rattle.base_core.specs.Puts.{PutsBytes};
ghost use Rattle.base_core.specs.Bytes.{le};
ghost use Rattle.fwu_formats.specs.Metadata.{bit_number, state_byte, entry_size, entries_bytes, fits_meta, meta_size, meta_size_v1, meta_body, meta_body_v1, meta_bytes, meta_bytes_v1, meta_of, replica_bytes, IsSayableInV1};
ghost use Rattle.meta_layout.specs.Entries.{meta_entry_of, state_bytes, front_bytes, rest_bytes, replica_size, HasBits};

use crate::bytes::seal;
use crate::fields::entries_size;
use crate::layout::Layout;
use crate::lists::States;
use crate::meta::Meta;
use base_core::{Guid, put, put1, put2, put4};
use fwu_formats::BankState;

fn bit_value(bit: bool) -> u32
    ensures { result ≡ bit_number bit }
{
    if bit { 1 } else { 0 }
}

fn put_bank(out: &mut [u8], at: usize, guid: &Guid, bit: bool) -> usize
    requires { at + 24 ≤ length out.old }
    ensures { PutsBytes at 24 (guid.now ++ le 4 (bit_number bit) ++ le 4 0) out.old out.new result }
{
    let typed = put(out, at, guid.bytes());
    let value = put4(out, typed, bit_value(bit));
    put4(out, value, 0)
}

fn put_entry(out: &mut [u8], at: usize, guid: &Guid, meta: &Meta, image: u32, banks: u32) -> usize
    requires room { at + 32 + 24 * banks ≤ length out.old }
    requires bits { HasBits meta.now.meta banks image }
    ensures { PutsBytes at (32 + 24 * banks) (meta_entry_of banks guid.now meta.now.meta image) out.old out.new result }
{
    let nil = Guid::nil();
    let typed = put(out, at, guid.bytes());
    let mut end = put(out, typed, nil.bytes());
    for bank in 0..banks {
        let bit = meta.bit(bank, image);
        end = put_bank(out, end, guid, bit);
    }
    end
}

fn put_entries(out: &mut [u8], at: usize, layout: &Layout, meta: &Meta) -> usize
    requires room { at + length layout.now.rows * entry_size layout.now ≤ length out.old }
    requires fit { IsTrue (fits_meta layout.now meta.now.meta) }
    ensures { let L = layout.now in
        PutsBytes at (length L.rows * entry_size L) (entries_bytes L meta.now.meta) out.old out.new result }
{
    let rows = layout.rows();
    let banks = layout.banks();
    let mut end = at;
    for image in 0..rows.len() {
        let row = &rows[image];
        end = put_entry(out, end, &row.guid, meta, image as u32, banks);
    }
    end
}

fn byte_of(state: BankState) -> u8
    ensures { result ≡ state_byte state }
{
    match state {
        BankState::Invalid => 0xFF,
        BankState::Valid => 0xFE,
        BankState::Accepted => 0xFC,
    }
}

/// Four bytes: the states, and 0xFF behind them.
fn put_states(out: &mut [u8], at: usize, states: &States) -> usize
    requires { at + 4 ≤ length out.old }
    ensures { PutsBytes at 4 (state_bytes states.now) out.old out.new result }
{
    let banks = states.len();
    let mut end = at;
    for bank in 0..banks {
        let state = states.get(bank);
        end = put1(out, end, byte_of(state));
    }
    let unused = [0xFF; 4];
    put(out, end, &unused[banks..])
}

fn put_front(out: &mut [u8], layout: &Layout, meta: &Meta) -> usize
    requires { 36 ≤ length out.old }
    ensures { PutsBytes 0 24 (front_bytes layout.now meta.now.meta) out.old out.new result }
{
    let size = 40 + entries_size(layout) as u32;
    let a = put4(out, 0, 2);
    let b = put4(out, a, meta.active());
    let c = put4(out, b, meta.previous());
    let d = put4(out, c, size);
    let e = put2(out, d, 0x20);
    let f = put2(out, e, 0);
    put_states(out, f, meta.states())
}

fn put_rest(out: &mut [u8], at: usize, layout: &Layout) -> usize
    requires { at + 12 ≤ length out.old }
    ensures { PutsBytes at 12 (rest_bytes layout.now) out.old out.new result }
{
    let banks = layout.banks();
    let images = layout.rows().len();
    let a = put4(out, at, 0);
    let b = put1(out, a, banks as u8);
    let c = put1(out, b, 0);
    let d = put2(out, c, images as u16);
    let e = put2(out, d, 32 + 24 * banks as u16);
    put2(out, e, 24)
}

/// Writes the bytes of version 2 that stand from place 4 on.
fn put_version_two(out: &mut [u8], layout: &Layout, meta: &Meta)
    requires room { meta_size layout.now ≤ length out.old + 4 }
    requires fit { IsTrue (fits_meta layout.now meta.now.meta) }
    ensures { take (meta_size layout.now - 4) out.new ≡ meta_body layout.now meta.now.meta }
{
    let front = put_front(out, layout, meta);
    let rest = put_rest(out, front, layout);
    let _end = put_entries(out, rest, layout, meta);
}

/// Writes the bytes of version 1 that stand from place 4 on.
fn put_version_one(out: &mut [u8], layout: &Layout, meta: &Meta)
    requires room { meta_size_v1 layout.now ≤ length out.old + 4 }
    requires fit { IsTrue (fits_meta layout.now meta.now.meta) }
    ensures { take (meta_size_v1 layout.now - 4) out.new ≡ meta_body_v1 layout.now meta.now.meta }
{
    let a = put4(out, 0, 1);
    let b = put4(out, a, meta.active());
    let c = put4(out, b, meta.previous());
    let _end = put_entries(out, c, layout, meta);
}

impl Meta {
    /// The bytes of the metadata of a layout in version 2, `40 + images * (32 + 24 * banks)`. Version 1 has 24 fewer.
    pub fn size(layout: &Layout) -> usize
        ensures value { result ≡ meta_size layout.now }
        ensures v1 { result ≡ meta_size_v1 layout.now + 24 }
        ensures small { result ≤ 2088 }
    {
        40 + entries_size(layout)
    }

    /// The bytes that one write of a replica has: the size of version 2, up to a whole granule of 16 bytes.
    pub fn replica_size(layout: &Layout) -> usize
        ensures value { result ≡ replica_size layout.now }
        ensures granules { result % 16 ≡ 0 }
        ensures room { meta_size layout.now ≤ result }
        ensures small { result ≤ 2096 }
    {
        let size = Meta::size(layout);
        size + (16 - size % 16) % 16
    }

    /// Writes the one spelling in version 2 (`read` has its fields), and 0xFF behind it to the end of the room.
    pub fn write(&self, layout: &Layout, out: &mut [u8])
        requires room { meta_size layout.now ≤ length out.old }
        requires fits { IsTrue (fits_meta layout.now self.now.meta) }
        ensures spelled { out.new ≡ meta_bytes layout.now self.now.meta ++ replicate (length out.old - meta_size layout.now) 0xFF }
        ensures replica { let size = replica_size layout.now in
            size ≤ length out.old → take size out.new ≡ replica_bytes layout.now self.now.meta }
        ensures read_again { meta_of layout.now out.new ≡ Ok (record { form = 2; meta = self.now.meta }) }
    {
        let size = 40 + entries_size(layout);
        put_version_two(&mut out[4..], layout, self);
        seal(out, size);
    }

    /// Writes the spelling in version 1, and 0xFF behind it to the end of the room. Version 1 has no states: they are read
    /// again where they are those that follow, and where as many bytes as version 2 has are there. It is meant for tests.
    pub fn write_one(&self, layout: &Layout, out: &mut [u8])
        requires room { meta_size_v1 layout.now ≤ length out.old }
        requires fits { IsTrue (fits_meta layout.now self.now.meta) }
        ensures spelled { out.new ≡ meta_bytes_v1 layout.now self.now.meta
            ++ replicate (length out.old - meta_size_v1 layout.now) 0xFF }
        ensures read_again { IsSayableInV1 layout.now self.now.meta → meta_size layout.now ≤ length out.old
            → meta_of layout.now out.new ≡ Ok (record { form = 1; meta = self.now.meta }) }
    {
        let size = 16 + entries_size(layout);
        put_version_one(&mut out[4..], layout, self);
        seal(out, size);
    }
}

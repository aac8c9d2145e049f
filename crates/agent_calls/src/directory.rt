//! The bytes of the image directory.
ghost use Rattle.std.specs.Prelude.{◌≡◌, ◌+◌, ◌-◌, ◌<◌, ◌≤◌, ◌++◌, length, take, IsTrue};
ghost use Rattle.base_core.specs.Bytes.{le};
ghost use Rattle.base_core.specs.Puts.{PutsBytes};
ghost use Rattle.fwu_formats.specs.Metadata.{bit_number, fits_meta};
ghost use Rattle.fwu_formats.specs.Manifest as model;
ghost use Rattle.agent_machine.specs.Fields.{directory_size};
ghost use Rattle.agent_machine.specs.Directory.{version_by, directory_by};

use base_core::{BLOCK_BYTES, Guid, le32_at, put, put4};
use manifest_core::row_at;
use meta_layout::{Layout, Meta};

/// The most bytes that a directory has.
pub const DIRECTORY: usize = 528;

fn bit_value(bit: bool) -> u32
    ensures { result ≡ bit_number bit }
{
    if bit { 1 } else { 0 }
}

/// The version of an image: of image 0 the manifest's security version, else what its row says.
fn version_of(manifest: &[u8], image: u32) -> u32
    requires few { image ≤ 16 }
    requires room { model.manifest_size image ≤ length manifest.now }
    ensures { result ≡ version_by manifest.now image }
{
    if image == 0 {
        return le32_at(manifest, 8);
    }
    row_at(manifest, image - 1).version
}

/// A row of the directory: of an image its type, the bytes that its slot has, its length in bytes, its
/// version, and whether it is accepted.
#[derive(Clone, Copy)]
struct DirectoryRow {
    guid: Guid,
    room: u32,
    length: u32,
    version: u32,
    accepted: bool,
}

fn put_row(out: &mut [u8], at: usize, row: &DirectoryRow) -> usize
    requires { at + 32 ≤ length out.old }
    ensures { let r = row.now in PutsBytes at 32 (r.guid ++ le 4 r.room ++ le 4 r.length ++ le 4 r.version
        ++ le 4 (bit_number r.accepted)) out.old out.new result }
{
    let typed = put(out, at, row.guid.bytes());
    let roomed = put4(out, typed, row.room);
    let sized = put4(out, roomed, row.length);
    let versioned = put4(out, sized, row.version);
    put4(out, versioned, bit_value(row.accepted))
}

/// The directory of a bank (own format), at the front of 528 bytes. It has the form, 1; how many
/// images there are; 32; and the bank. For each image it has its type, the bytes that its slot has,
/// its length in bytes, its version, and 1 where it is accepted, else 0. The numbers have four
/// bytes, little-endian.
pub fn directory_of(
    layout: &Layout,
    meta: &Meta,
    bank: u32,
    lengths: &[u32; 16],
    manifest: &[u8],
) -> [u8; 528]
    requires fit { IsTrue (fits_meta layout.now meta.now.meta) }
    requires bank { bank < layout.now.banks }
    requires manifest { model.manifest_size (length layout.now.rows - 1) ≤ length manifest.now }
    ensures spelled { take (directory_size (length layout.now.rows)) result
        ≡ directory_by layout.now meta.now.meta bank lengths.now manifest.now }
    ensures room { directory_size (length layout.now.rows) ≤ length result }
{
    let rows = layout.rows();
    let mut out = [0; DIRECTORY];
    let formed = put4(&mut out, 0, 1);
    let counted = put4(&mut out, formed, rows.len() as u32);
    let sized = put4(&mut out, counted, 32);
    let mut end = put4(&mut out, sized, bank);
    for image in 0..rows.len() {
        let row = &rows[image];
        let version = version_of(manifest, image as u32);
        let bit = meta.bit(bank, image as u32);
        let shown = DirectoryRow {
            guid: row.guid,
            room: BLOCK_BYTES * row.slots,
            length: lengths[image],
            version,
            accepted: bit,
        };
        end = put_row(&mut out, end, &shown);
    }
    out
}

//! The tests of a manifest against the images of a layout, in their order.
ghost use Rattle.std.specs.Prelude.{◌≡◌, ◌-◌, ◌*◌, ◌≤◌, ◌==◌, length, take, drop, nat_le, OnOk};
ghost use Rattle.base_core.specs.Block.{block_bytes};
ghost use Rattle.base_core.specs.Bytes.{num_at, same_bytes, listed};
ghost use Rattle.base_core.specs.Limits.{most_images};
ghost use Rattle.sha2.specs.Sha256.{sha256};
ghost use Rattle.fwu_formats.specs.Manifest as model;
ghost use Rattle.manifest_core.specs.Shown.{version_of, is_named, fits_slot};

use crate::sizes::{manifest_size, row_place};
use base_core::{BLOCK_BYTES, Guid, ImageRow, le32_at};
use fwu_formats::ManifestFault;
use sha2::{Digest, Sha256};

pub const MAGIC: u32 = 0x464D_5746;

/// The greatest security version of form 1.
pub const VERSION_LIMIT: u32 = 223;

fn has_magic(bytes: &[u8]) -> bool
    requires { 4 ≤ length bytes.now }
    ensures { result ≡ (num_at 4 bytes.now 0 == model.manifest_magic) }
{
    le32_at(bytes, 0) == MAGIC
}

/// Whether it is of form 1, or of form 2 with a security version that form 1 hasn't.
fn has_form(bytes: &[u8]) -> bool
    requires { 12 ≤ length bytes.now }
    ensures { result ≡ model.has_form bytes.now }
{
    let form = le32_at(bytes, 4);
    form == 1 || (form == 2 && VERSION_LIMIT < le32_at(bytes, 8))
}

/// Whether it is of form 1 with a security version that form 1 hasn't.
fn is_version_too_high(bytes: &[u8]) -> bool
    requires { 12 ≤ length bytes.now }
    ensures { result ≡ model.is_version_too_high bytes.now }
{
    le32_at(bytes, 4) == 1 && VERSION_LIMIT < le32_at(bytes, 8)
}

fn has_count(bytes: &[u8], count: usize) -> bool
    requires { 16 ≤ length bytes.now }
    ensures { result ≡ (num_at 4 bytes.now 12 == count) }
{
    le32_at(bytes, 12) as usize == count
}

/// Whether row j is of this type.
fn is_row_of(bytes: &[u8], j: usize, guid: &Guid) -> bool
    requires few { j ≤ most_images }
    requires room { model.field_place model.row_size j ≤ length bytes.now }
    ensures { result ≡ same_bytes guid.now (take 16 (drop (model.row_place j) bytes.now)) }
{
    guid.is(&Guid::at(bytes, row_place(j)))
}

/// Whether what row j says fits in so many blocks.
fn fits_blocks(bytes: &[u8], j: usize, slots: u32) -> bool
    requires few { j ≤ most_images }
    requires room { model.field_place model.row_size j ≤ length bytes.now }
    ensures { result ≡ nat_le (num_at 4 bytes.now (model.field_place 16 j)) (block_bytes * slots) }
{
    u64::from(le32_at(bytes, row_place(j) + 16)) <= u64::from(BLOCK_BYTES) * u64::from(slots)
}

/// Whether the bytes from n on are the digest of those before.
fn is_digested(bytes: &[u8], n: usize) -> bool
    requires { n ≤ length bytes.now }
    ensures { result ≡ same_bytes (drop n bytes.now) (sha256 (take n bytes.now)) }
{
    let digest = Sha256::digest(&bytes[..n]);
    &bytes[n..] == digest.as_slice()
}

/// Whether the rows are of the types of these images, in order.
fn is_in_order(bytes: &[u8], images: &[ImageRow]) -> bool
    requires few { length images.now ≤ most_images }
    requires room { model.row_place (length images.now) ≤ length bytes.now }
    ensures { result ≡ model.all_paired is_named images.now (listed (length images.now)
        (model.row_at bytes.now)) }
{
    for j in 0..images.len() {
        if !is_row_of(bytes, j, &images[j].guid) {
            return false;
        }
    }
    true
}

/// Whether the images that the rows tell of fit their slots.
fn fits_slots(bytes: &[u8], images: &[ImageRow]) -> bool
    requires few { length images.now ≤ most_images }
    requires room { model.row_place (length images.now) ≤ length bytes.now }
    ensures { result ≡ model.all_paired fits_slot images.now (listed (length images.now)
        (model.row_at bytes.now)) }
{
    for j in 0..images.len() {
        if !fits_blocks(bytes, j, images[j].slots) {
            return false;
        }
    }
    true
}

/// The security version or the first fault of bytes that have a manifest's length.
fn test_whole(whole: &[u8], rows: &[ImageRow]) -> Result<u32, ManifestFault>
    requires some { 1 ≤ length rows.now }
    requires few { length rows.now ≤ most_images }
    requires size { length whole.now ≡ model.manifest_size (length rows.now - 1) }
    ensures { result ≡ version_of (model.manifest_of rows.now whole.now) }
{
    let others = &rows[1..];
    if !has_magic(whole) {
        return Err(ManifestFault::BadMagic);
    }
    if !has_form(whole) {
        return Err(ManifestFault::BadForm);
    }
    if is_version_too_high(whole) {
        return Err(ManifestFault::VersionTooHigh);
    }
    if !has_count(whole, others.len()) {
        return Err(ManifestFault::BadCount);
    }
    if !is_in_order(whole, others) {
        return Err(ManifestFault::WrongOrder);
    }
    if !fits_slots(whole, others) {
        return Err(ManifestFault::TooLarge);
    }
    if !is_digested(whole, row_place(others.len())) {
        return Err(ManifestFault::BadDigest);
    }
    Ok(le32_at(whole, 8))
}

/// The security version of the manifest at the front of the bytes, or the first fault against the images of a layout.
/// What stands behind the manifest's length is passed over. The faults come in this order. First come fewer bytes than
/// a manifest of these images has (`Short`), and another magic number. Then neither form 1, nor form 2 with a version
/// above 223 (`BadForm`), and form 1 with a version above 223. Then a count other than the images but the first
/// (`BadCount`), and a row that has not its image's type (`WrongOrder`). Then a row that says more bytes than its
/// image's slot has (`TooLarge`), and another digest. It takes no memory.
pub fn test(bytes: &[u8], rows: &[ImageRow]) -> Result<u32, ManifestFault>
    requires some { 1 ≤ length rows.now }
    requires few { length rows.now ≤ most_images }
    ensures is { result ≡ version_of (model.manifest_of rows.now bytes.now) }
    // A manifest's rows can be read with `row_at`.
    ensures room { OnOk result (model.manifest_size (length rows.now - 1) ≤ length bytes.now) }
{
    let size = manifest_size(rows);
    if bytes.len() < size {
        return Err(ManifestFault::Short);
    }
    test_whole(&bytes[..size], rows)
}

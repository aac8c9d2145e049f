//! Packages that are made from a number.
ghost use Rattle.std.specs.Prelude.{◌≡◌, ◌+◌, ◌*◌, ◌%◌, ◌<◌, ◌≤◌, ◌∷◌, All, IfOk, OnOk, IsTrue, length, map};
ghost use Rattle.fwu_formats.specs.Manifest.{manifest_bytes, most_rows};
ghost use Rattle.gen_core.specs.Generated.{are_images, fit_sizes, generated, generated_images, image_bytes, image_parts, manifest_for, parts_from, manifest_row_of};
ghost use Rattle.gen_core.specs.Law.{InstallsPackage};
ghost use Rattle.manifest_core.specs.Shown.{row};

use base_core::{Guid, ImageRow, NoMemory};
use fip_tables::{PackStop, Part, Parts, pack};
use manifest_core::{Manifest, ManifestStop, Row};
use std::alloc::{AllocError, Global};

// The serial number of packages that are made.
const SERIAL: u32 = 0x1234_5678;

/// Byte j of image i of the package of a number.
fn byte_at(number: u32, i: u32, j: u32) -> u8
    ensures { result ≡ (7 * j + i + number) % 256 }
{
    ((7 * u64::from(j) + u64::from(i) + u64::from(number)) % 256) as u8
}

/// Image i of the package of a number.
fn image(alloc: Global, number: u32, i: u32, size: u32) -> Result<Vec<u8>, AllocError>
    ensures { IfOk result (λ bytes. bytes.items ≡ image_bytes number i size) }
{
    let mut bytes = Vec::with_capacity(alloc, size as usize)?;
    for j in 0..size {
        bytes.push(byte_at(number, i, j))?;
    }
    Ok(bytes)
}

/// The images behind the manifest, with their types.
fn images(
    alloc: Global,
    rows: &[ImageRow],
    sizes: &[u32],
    number: u32,
) -> Result<Vec<Part>, AllocError>
    requires count { length rows.now ≡ length sizes.now }
    requires few { length sizes.now ≤ most_rows }
    requires small { All (λ size. size ≤ 1048576) sizes.now }
    ensures made { IfOk result (λ parts. parts.items ≡ image_parts number 1 rows.now sizes.now) }
    ensures count { IfOk result (λ parts. length parts.items ≡ length sizes.now) }
    ensures small { IfOk result (λ parts. All (λ p. length p.bytes ≤ 1048576) parts.items) }
{
    let mut parts = Vec::new(alloc);
    for k in 0..sizes.len() {
        parts.push(Part {
            guid: rows[k].guid,
            flags: 0,
            bytes: image(alloc, number, k as u32 + 1, sizes[k])?,
        })?;
    }
    Ok(parts)
}

/// What the manifest says of these images.
fn manifest_rows(alloc: Global, images: &[Part], number: u32) -> Result<Vec<Row>, AllocError>
    requires small { All (λ p. length p.bytes ≤ 1048576) images.now }
    ensures { IfOk result (λ rows. map row rows.items ≡ map (manifest_row_of number) images.now) }
{
    let mut rows = Vec::new(alloc);
    for part in images {
        rows.push(Row::of(part.guid, number, part.bytes.as_slice()))?;
    }
    Ok(rows)
}

/// The bytes of the manifest of these images.
fn manifest(alloc: Global, images: &[Part], number: u32, security: u32) -> Result<Vec<u8>, NoMemory>
    requires some { 1 ≤ length images.now }
    requires few { length images.now ≤ most_rows }
    requires small { All (λ p. length p.bytes ≤ 1048576) images.now }
    ensures { IfOk result (λ bytes.
        bytes.items ≡ manifest_bytes (manifest_for number security images.now)) }
{
    let rows = manifest_rows(alloc, images, number)?;
    match Manifest::of_rows(alloc, security, rows) {
        Ok(manifest) => manifest.write(alloc),
        Err(ManifestStop::NoMemory) => Err(NoMemory),
        Err(ManifestStop::Fault(_)) => unreachable!(),
    }
}

fn put_first(parts: &mut Vec<Part>, first: Part) -> Result<(), AllocError>
    ensures { OnOk result (parts.new.items ≡ first ∷ parts.old.items) }
{
    parts.insert(0, first)?;
    Ok(())
}

/// The manifest, and then the images of these rows.
fn parts(
    alloc: Global,
    first: Guid,
    rows: &[ImageRow],
    sizes: &[u32],
    number: u32,
    security: u32,
) -> Result<Vec<Part>, NoMemory>
    requires count { length rows.now ≡ length sizes.now }
    requires some { 1 ≤ length sizes.now }
    requires few { length sizes.now ≤ most_rows }
    requires small { All (λ size. size ≤ 1048576) sizes.now }
    ensures { IfOk result (λ parts.
        parts.items ≡ parts_from first rows.now sizes.now number security) }
{
    let mut parts = images(alloc, rows, sizes, number)?;
    let bytes = manifest(alloc, parts.as_slice(), number, security)?;
    put_first(
        &mut parts,
        Part {
            guid: first,
            flags: 0,
            bytes,
        },
    )?;
    Ok(parts)
}

/// The package of a number, for a layout of these image rows. It has a manifest of this security
/// version whose image versions are the number, and then the images, each of as many bytes as its
/// size says. The first size is that of image 1. Byte j of image i is the low byte of `7j + i +
/// number`. The package has the serial number 0x12345678 and no flags, and no payload is aligned. It
/// is complete for the layout, and each of its entries is that of an image. It takes memory for
/// about twice the images' sizes; the error comes where that is wanting.
pub fn package(
    alloc: Global,
    rows: &[ImageRow],
    sizes: &[u32],
    number: u32,
    security: u32,
) -> Result<Vec<u8>, NoMemory>
    requires images { IsTrue (are_images rows.now) }
    requires sizes { IsTrue (fit_sizes rows.now sizes.now) }
    requires version { security ≤ 223 }
    ensures made { IfOk result (λ file. file.items ≡ generated rows.now sizes.now number security) }
    ensures installs { IfOk result (λ file.
        let images = generated_images rows.now sizes.now number security in
        InstallsPackage rows.now file.items images security) }
{
    let parts = Parts {
        serial: SERIAL,
        flags: 0,
        parts: parts(alloc, rows[0].guid, &rows[1..], sizes, number, security)?,
    };
    match pack(alloc, &parts, 1) {
        Ok(file) => Ok(file),
        Err(PackStop::NoMemory) => Err(NoMemory),
        Err(PackStop::Fault(_)) => unreachable!(),
    }
}

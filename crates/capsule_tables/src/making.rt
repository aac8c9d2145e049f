//! Capsules made from payloads.

ghost use Rattle.std.specs.Prelude.{◌≡◌, ◌≤◌, ◌<◌, ◌+◌, ◌*◌, ◌++◌, All, None, Err, IfOk, IfErr, OnOk, length};
ghost use Rattle.fip_tables.specs.Frame.{IsFrame};
ghost use Rattle.fip_tables.specs.Packing.{IsByFault};
ghost use Rattle.fip_tables.specs.declared.faults.PackFault.TheVariants as fault;
ghost use Rattle.fip_tables.specs.declared.faults.PackStop.TheVariants as stop;
ghost use Rattle.capsule_tables.specs.Making.{IsCapsuleOf, capsule_bytes, capsule_size, head_gaps, headers_bytes, heads_bytes, item_head, make_fault, places_bytes};

use crate::guids::{FMP_GUID, swapped};
use fip_tables::{Frame, Outline, PackFault, PackStop, Parts, check_parts, outlines};
use std::alloc::{AllocError, Global};

// The greatest capsule, in bytes.
const LIMIT: u64 = 67_108_864;

// The bytes of both headers, of a place, and of an item before its image.
const HEADERS: u64 = 36;

const PLACE: u64 = 8;

const HEAD: u64 = 40;

// The bytes of the capsule of these parts.
fn size_of(parts: &[Outline]) -> Result<u64, PackFault>
    requires few { length parts.now ≤ 64 }
    ensures size { IfOk result (λ n. (n ≡ capsule_size parts.now) × (n ≤ 67108864)) }
    ensures each { OnOk result (All (λ p. length p.bytes ≤ 67108864) parts.now) }
    ensures err { IfErr result (λ f. (f ≡ fault.TooLarge) × (67108864 < capsule_size parts.now)) }
{
    let mut size = HEADERS + (PLACE + HEAD) * parts.len() as u64;
    for part in parts {
        if part.size > LIMIT - size {
            return Err(PackFault::TooLarge);
        }
        size += part.size;
    }
    Ok(size)
}

// A buffer that has a capsule's two headers, with room for all that stands before the images.
#[tactic(auto, using(base_core::proofs::Spelled::four_spelled))]
fn headers(alloc: Global, size: u32, items: u16) -> Result<Vec<u8>, AllocError>
    ensures { IfOk result (λ v. v.items ≡ headers_bytes size items) }
{
    let room = HEADERS + (PLACE + HEAD) * u64::from(items);
    let mut bytes = Vec::with_capacity(alloc, room as usize)?;
    bytes.extend_from_slice(&FMP_GUID)?;
    bytes.extend_from_slice(&28u32.to_le_bytes())?;
    bytes.extend_from_slice(&0u32.to_le_bytes())?;
    bytes.extend_from_slice(&size.to_le_bytes())?;
    bytes.extend_from_slice(&1u32.to_le_bytes())?;
    bytes.extend_from_slice(&0u16.to_le_bytes())?;
    bytes.extend_from_slice(&items.to_le_bytes())?;
    Ok(bytes)
}

// Adds the places of all items, counted from the payloads' header.
fn add_places(bytes: &mut Vec<u8>, parts: &[Outline]) -> Result<(), AllocError>
    requires few { length parts.now ≤ 64 }
    requires small { All (λ p. length p.bytes ≤ 67108864) parts.now }
    ensures { OnOk result (bytes.new.items ≡ bytes.old.items
        ++ places_bytes (8 + 8 * length parts.now) parts.now) }
{
    let mut at = 8 + PLACE * parts.len() as u64;
    for part in parts {
        bytes.extend_from_slice(&at.to_le_bytes())?;
        at += HEAD + part.size;
    }
    Ok(())
}

// Adds what stands before the image of the item of this number, from 1 on: 40 bytes, by which the item
// has version 2 (UEFI).
fn add_head(bytes: &mut Vec<u8>, index: u8, part: &Outline) -> Result<(), AllocError>
    requires { length part.now.bytes < 4294967296 }
    ensures { OnOk result (bytes.new.items ≡ bytes.old.items ++ item_head index part.now) }
{
    let guid = swapped(&part.guid);
    bytes.extend_from_slice(&2u32.to_le_bytes())?;
    bytes.extend_from_slice(guid.bytes())?;
    bytes.extend_from_slice(&[index, 0, 0, 0])?;
    bytes.extend_from_slice(&(part.size as u32).to_le_bytes())?;
    bytes.extend_from_slice(&[0; 12])?;
    Ok(())
}

// Adds what stands before the images of all items, numbered from 1 on.
fn add_heads(bytes: &mut Vec<u8>, parts: &[Outline]) -> Result<(), AllocError>
    requires few { length parts.now ≤ 64 }
    requires small { All (λ p. length p.bytes ≤ 67108864) parts.now }
    ensures { OnOk result (bytes.new.items ≡ bytes.old.items ++ heads_bytes 1 parts.now) }
{
    let mut index = 1;
    for part in parts {
        add_head(bytes, index, part)?;
        index += 1;
    }
    Ok(())
}

// How many bytes stand before each image, where so many stand before the items.
fn gaps_of(alloc: Global, front: usize, parts: &[Outline]) -> Result<Vec<usize>, AllocError>
    requires { front ≤ 67108864 }
    ensures { IfOk result (λ v. v.items ≡ head_gaps front parts.now) }
{
    let mut gaps = Vec::with_capacity(alloc, parts.len())?;
    let mut before = front;
    for _part in parts {
        gaps.push(before + HEAD as usize)?;
        before = 0;
    }
    Ok(gaps)
}

/// What the capsule of these parts has besides their payloads, which are the images of its items in
/// their order. It has both headers, the places of the items, and before each image 40 bytes. A capsule
/// has at most 67,108,864 bytes.
pub fn capsule_frame(alloc: Global, parts: &[Outline]) -> Result<Frame, PackStop>
    ensures frame { IfOk result (λ f. IsFrame f parts.now capsule_bytes) }
    ensures counted { IfOk result (λ f. f.size ≡ capsule_size parts.now) }
    ensures fault { IsByFault result (make_fault parts.now) }
    ensures memory { result ≡ Err stop.NoMemory → make_fault parts.now ≡ None }
{
    check_parts(parts)?;
    let size = size_of(parts)?;
    let mut bytes = headers(alloc, size as u32, parts.len() as u16)?;
    add_places(&mut bytes, parts)?;
    let gaps = gaps_of(alloc, bytes.len(), parts)?;
    add_heads(&mut bytes, parts)?;
    Ok(Frame { bytes, gaps, size })
}

/// The capsule of these parts, one item each, in their order: their flags and the package's own
/// serial number and flags are left out. A capsule has at most 67,108,864 bytes.
pub fn make_capsule(alloc: Global, parts: &Parts) -> Result<Vec<u8>, PackStop>
    ensures ok { IfOk result (λ v. v.items ≡ capsule_bytes parts.now.parts.items) }
    ensures read_again { IfOk result (λ v. IsCapsuleOf parts.now.parts.items v.items) }
    ensures fault { IsByFault result (make_fault parts.now.parts.items) }
{
    let payloads = parts.parts.as_slice();
    let all = outlines(alloc, payloads)?;
    let frame = capsule_frame(alloc, all.as_slice())?;
    Ok(frame.filled(alloc, payloads)?)
}

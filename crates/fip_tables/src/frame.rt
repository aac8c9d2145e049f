//! What a package has besides its payloads, for one that is made in memory or in a file.

ghost use Rattle.std.specs.Prelude.{◌≡◌, ◌<◌, ◌≤◌, ◌*◌, ◌++◌, List, None, Err, IfOk, IfErr, OnOk, drop, flat_map, length, take};
ghost use Rattle.base_core.specs.Bytes.{le};
ghost use Rattle.fwu_formats.specs.Package.{Part as Payload, fip_name, packed, packed_entries};
ghost use Rattle.host_io.specs.Joined.{joined};
ghost use Rattle.fip_tables.specs.Packing.{IsByFault, pack_fault};
ghost use Rattle.fip_tables.specs.declared.faults.PackFault.{PackFault};
ghost use Rattle.fip_tables.specs.declared.faults.PackStop.TheVariants as stop;
ghost use Rattle.fip_tables.specs.Frame.{AreInOrder, IsFrame, chunks, toc_entry_bytes, gaps_from, last_end, sizes_of, table_end, tabled};

use crate::entries::{Entries, Entry};
use crate::faults::{PackFault, PackStop};
use crate::outline::{Outline, check};
use crate::payloads::Part;
use base_core::Guid;
use std::alloc::{AllocError, Global};

const NAME: u32 = 0xAA64_0001;

// The greatest package, in bytes.
const LIMIT: u64 = 67_108_864;

// Where the payloads go, and how many bytes the package has.
#[derive(Drop)]
struct Places {
    entries: Entries,
    size: u64,
}

// The places of the payloads, where they have room.
fn places_of(parts: &[Outline], align: u64) -> Result<Places, PackFault>
    requires few { length parts.now ≤ 64 }
    requires some { 0 < align }
    requires least { align ≤ 4096 }
    ensures entries { IfOk result (λ p. p.entries ≡ packed_entries align (table_end parts.now) parts.now) }
    ensures size { IfOk result (λ p. p.size ≡ last_end align (table_end parts.now) parts.now) }
    ensures small { IfOk result (λ p. p.size ≤ 67108864) }
    ensures err { IfErr result (λ f. (f ≡ PackFault.TooLarge) × (67108864 < last_end align (table_end parts.now) parts.now)) }
{
    let mut end = 16 + 40 * (parts.len() as u64 + 1);
    let mut entries = Entries::new();
    for part in parts {
        let offset = end.next_multiple_of(align);
        if offset > LIMIT || part.size > LIMIT - offset {
            return Err(PackFault::TooLarge);
        }
        entries.push(Entry {
            guid: part.guid,
            offset,
            size: part.size,
            flags: part.flags,
        });
        end = offset + part.size;
    }
    let size = end.next_multiple_of(align);
    if size > LIMIT {
        return Err(PackFault::TooLarge);
    }
    Ok(Places { entries, size })
}

// Appends the forty bytes of an entry.
#[tactic(auto, using(base_core::proofs::Spelled::eight_spelled))]
fn add_entry(bytes: &mut Vec<u8>, entry: &Entry) -> Result<(), AllocError>
    ensures added { OnOk result (bytes.new.items ≡ bytes.old.items ++ toc_entry_bytes entry.now) }
    ensures forty { length (toc_entry_bytes entry.now) ≡ 40 }
{
    bytes.extend_from_slice(entry.guid.bytes())?;
    bytes.extend_from_slice(&entry.offset.to_le_bytes())?;
    bytes.extend_from_slice(&entry.size.to_le_bytes())?;
    bytes.extend_from_slice(&entry.flags.to_le_bytes())?;
    Ok(())
}

// Appends all entries.
fn add_entries(bytes: &mut Vec<u8>, entries: &[Entry]) -> Result<(), AllocError>
    ensures added { OnOk result (bytes.new.items ≡ bytes.old.items ++ flat_map toc_entry_bytes entries.now) }
    ensures forty { OnOk result (length (flat_map toc_entry_bytes entries.now) ≡ 40 * length entries.now) }
{
    for entry in entries {
        add_entry(bytes, entry)?;
    }
    Ok(())
}

// A buffer with room for so many bytes, that has a package's header.
#[tactic(auto, using(base_core::proofs::Spelled::eight_spelled, base_core::proofs::Spelled::four_spelled))]
fn header(alloc: Global, serial: u32, flags: u64, room: usize) -> Result<Vec<u8>, AllocError>
    ensures { IfOk result (λ v. v.items ≡ le 4 fip_name ++ le 4 serial ++ le 8 flags) }
{
    let mut bytes = Vec::with_capacity(alloc, room)?;
    bytes.extend_from_slice(&NAME.to_le_bytes())?;
    bytes.extend_from_slice(&serial.to_le_bytes())?;
    bytes.extend_from_slice(&flags.to_le_bytes())?;
    Ok(bytes)
}

// A buffer with room for so many bytes, that has a package's header and its table.
fn table(
    alloc: Global,
    serial: u32,
    flags: u64,
    places: &Places,
    room: usize,
) -> Result<Vec<u8>, AllocError>
    ensures { IfOk result (λ v. v.items ≡ tabled serial flags places.now.entries places.now.size) }
{
    let mut bytes = header(alloc, serial, flags, room)?;
    add_entries(&mut bytes, places.entries.as_slice())?;
    let marker = Entry {
        guid: Guid::nil(),
        offset: places.size,
        size: 0,
        flags: 0,
    };
    add_entry(&mut bytes, &marker)?;
    Ok(bytes)
}

// How many bytes stand before each payload, from the end of the one before on.
fn gaps_of(alloc: Global, entries: &[Entry]) -> Result<Vec<usize>, AllocError>
    requires { AreInOrder 0 entries.now 67108864 }
    ensures { IfOk result (λ v. v.items ≡ gaps_from 0 entries.now) }
{
    let mut gaps = Vec::with_capacity(alloc, entries.len())?;
    let mut end = 0;
    for entry in entries {
        gaps.push((entry.offset - end) as usize)?;
        end = entry.offset + entry.size;
    }
    Ok(gaps)
}

// How many bytes all payloads have.
fn sizes_of(entries: &[Entry]) -> u64
    requires { sizes_of entries.now ≤ 67108864 }
    ensures { result ≡ sizes_of entries.now }
{
    let mut sizes = 0;
    for entry in entries {
        sizes += entry.size;
    }
    sizes
}

/// What a file of payloads has besides them. These are the bytes that stand before, between and behind
/// them, and how many of those stand before each payload, behind those before the payload before it.
/// What is left stands behind the last payload. `size` is how many bytes the whole file has.
#[derive(Debug, Drop)]
pub struct Frame {
    pub bytes: Vec<u8>,
    pub gaps: Vec<usize>,
    pub size: u64,
}

/// What the package of these parts has besides their payloads. Its header and its table stand before
/// the first payload. From there, and from the end of each payload, zeros stand up to the next multiple
/// of the alignment, in bytes: there the next payload begins, or the package ends.
pub fn package_frame(
    alloc: Global,
    serial: u32,
    flags: u64,
    outlines: &[Outline],
    align: u32,
) -> Result<Frame, PackStop>
    ensures frame { IfOk result (λ f. IsFrame f outlines.now (λ (parts : List Payload). packed serial flags parts align)) }
    ensures fault { IsByFault result (pack_fault outlines.now align) }
    ensures memory { result ≡ Err stop.NoMemory → pack_fault outlines.now align ≡ None }
{
    check(outlines, align)?;
    let places = places_of(outlines, align as u64)?;
    let entries = places.entries.as_slice();
    let gaps = gaps_of(alloc, entries)?;
    let size = (places.size - sizes_of(entries)) as usize;
    let mut bytes = table(alloc, serial, flags, &places, size)?;
    bytes.resize(size, 0)?;
    Ok(Frame {
        bytes,
        gaps,
        size: places.size,
    })
}

// Adds as many more bytes of a frame as the gap says, and a payload. Gives what is left of the frame.
fn add_payload<'a>(
    bytes: &mut Vec<u8>,
    left: &'a [u8],
    gap: usize,
    payload: &[u8],
) -> Result<&'a [u8], AllocError>
    ensures added { OnOk result (bytes.new.items ≡ bytes.old.items ++ (take gap left.now ++ payload.now)) }
    ensures left { IfOk result (λ rest. rest.now ≡ drop gap left.now) }
{
    let (before, rest) = left.split_at(gap.min(left.len()));
    bytes.extend_from_slice(before)?;
    bytes.extend_from_slice(payload)?;
    Ok(rest)
}

impl Frame {
    /// The bytes of the file with these payloads, as far as there are gaps for them.
    pub fn filled(&self, alloc: Global, parts: &[Part]) -> Result<Vec<u8>, AllocError>
        ensures { IfOk result (λ v. v.items ≡ joined self.now.bytes.items (chunks self.now.gaps.items parts.now)) }
    {
        let mut bytes = Vec::with_capacity(alloc, self.size as usize)?;
        let mut left = self.bytes.as_slice();
        let gaps = self.gaps.as_slice();
        for i in 0..gaps.len().min(parts.len()) {
            let part = &parts[i];
            left = add_payload(&mut bytes, left, gaps[i], part.bytes.as_slice())?;
        }
        bytes.extend_from_slice(left)?;
        Ok(bytes)
    }
}

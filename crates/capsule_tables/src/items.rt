//! The items of a capsule.

ghost use Rattle.std.specs.Prelude.{◌≡◌, ◌<◌, ◌≤◌, ◌+◌, ◌*◌, ℕ, List, Some, None, Ok, Err, IfOk, IfSome};
ghost use Rattle.host_io.specs.Causes.{HasCause};
ghost use Rattle.host_io.specs.Contents.{TellsSize};
ghost use Rattle.fwu_formats.specs.Package.{Entry};
ghost use Rattle.host_io.specs.Reads.{ReadsFile};
ghost use Rattle.fip_tables.specs.Files.{Tells};
ghost use Rattle.capsule_tables.specs.Answers.{AnswersFile, AreEntries, HasReadCause};
ghost use Rattle.fwu_formats.specs.Capsule.{items_of, places_end};
ghost use Rattle.capsule_tables.specs.Ranges.{FitsFile, IsOfItems, IsRead, good_entry, item_read};

use crate::faults::CapsuleStop;
use crate::guids::swapped;
use crate::shape::Shape;
use crate::window::read_range;
use base_core::{Guid, le32_at, le64_at};
use fip_tables::{Entries, Entry};
use fwu_formats::CapsuleFault;
use host_io::{Failed, Files};

// The bytes of an item before those that a version adds.
const ITEM_SIZE: u64 = 32;

// The entry of the item whose first 32 bytes these are, at a place of a capsule, unless it is bad.
fn item_in(head: &[u8; 32], at: u64, shape: &Shape) -> Option<Entry>
    requires inside { at + 32 ≤ shape.now.end }
    requires small { shape.now.end < 4294967296 }
    requires behind { places_end shape.now ≤ at }
    ensures value { result ≡ item_read shape.now at head.now }
    ensures ends { IfSome result (λ e. e.offset + e.size ≤ shape.now.end) }
{
    let version = le32_at(head, 0);
    if version < 1 || 3 < version {
        return None;
    }
    let image = at + 24 + 8 * u64::from(version);
    let size = u64::from(le32_at(head, 24));
    let vendor = u64::from(le32_at(head, 28));
    let guid = swapped(&Guid::at(head, 4));
    if guid.is(&Guid::nil()) || shape.end < image + size + vendor {
        return None;
    }
    Some(Entry {
        guid,
        offset: image,
        size,
        flags: 0,
    })
}

// Reads item i: its entry, unless it is bad.
fn read_item<H: Files>(
    files: &mut H,
    name: &str,
    size: u64,
    shape: &Shape,
    i: u64,
) -> Result<Option<Entry>, Failed>
    requires known { TellsSize (H.contents files.old) name.now (Some size) }
    requires there { i < shape.now.items }
    requires inside { FitsFile shape.now size }
    ensures told { IfOk result (λ o. (bytes : List ℕ)
        → Tells (H.contents files.old) name.now bytes → o ≡ good_entry bytes shape.now i) }
    ensures some { IfOk result (λ o. IfSome o (IsRead shape.now)) }
    ensures ends { IfOk result (λ o. IfSome o (λ e. e.offset + e.size ≤ shape.now.end)) }
    ensures reads { ReadsFile H.Files name.now files.old files.new }
    ensures cause { HasCause (H.faults files.old) (H.faults files.new) result }
{
    let mut place = [0u8; 8];
    read_range(
        files,
        name,
        size,
        shape.header + 8 + 8 * (shape.drivers + i),
        &mut place,
    )?;
    let from_header = le64_at(&place, 0);
    if from_header > shape.end - shape.header {
        return Ok(None);
    }
    let at = shape.header + from_header;
    if at < shape.header + 8 + 8 * (shape.drivers + shape.items) || shape.end - at < ITEM_SIZE {
        return Ok(None);
    }
    let mut head = [0u8; 32];
    read_range(files, name, size, at, &mut head)?;
    Ok(item_in(&head, at, shape))
}

/// The entries of all items.
pub fn read_items<H: Files>(
    files: &mut H,
    name: &str,
    size: u64,
    shape: &Shape,
) -> Result<Entries, CapsuleStop>
    requires known { TellsSize (H.contents files.old) name.now (Some size) }
    requires inside { FitsFile shape.now size }
    ensures told { AnswersFile (H.contents files.old) name.now (λ bytes. items_of bytes shape.now) result }
    ensures some { IsOfItems shape.now result }
    ensures any { IfOk result (λ entries. AreEntries entries shape.now.end) }
    ensures reads { ReadsFile H.Files name.now files.old files.new }
    ensures cause { HasReadCause (H.contents files.old) name.now (H.faults files.old)
        (H.faults files.new) result }
{
    let mut entries = Entries::new();
    for i in 0..shape.items {
        let Some(entry) = read_item(files, name, size, shape, i)? else {
            return Err(CapsuleStop::Fault(CapsuleFault::BadItem(i as u32)));
        };
        if entries.has(&entry.guid) {
            return Err(CapsuleStop::Fault(CapsuleFault::Duplicate(i as u32)));
        }
        entries.push(entry);
    }
    Ok(entries)
}

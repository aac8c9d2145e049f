//! The line that tells why a command ended before all was done.
ghost use Rattle.std.specs.Prelude.{◌≡◌, ◌++◌, IfOk, codes, decimal};
ghost use Rattle.base_core.specs.Guid.{guid_text};
ghost use Rattle.fwu_formats.specs.FaultText.{capsule_fault_number};
ghost use Rattle.fwu_formats.specs.FaultText as text;
ghost use Rattle.fip_tool.specs.Lines as said;

use crate::lines::{add, add_guid, add_named};
use base_core::{Guid, NoMemory};
use capsule_tables::CapsuleFault;
use fip_making::Stop;
use fip_tables::PackFault;
use fwu_formats::{FipFault, ManifestFault};
use std::alloc::Global;

fn word(alloc: Global, word: &[u8]) -> Result<Vec<u8>, NoMemory>
    ensures { IfOk result (λ text. text.items ≡ word.now) }
{
    Ok(Vec::from_slice(alloc, word)?)
}

fn numbered(alloc: Global, word: &[u8], number: u32) -> Result<Vec<u8>, NoMemory>
    ensures { IfOk result (λ text. text.items ≡ word.now ++ decimal number) }
{
    let mut text = Vec::new(alloc);
    add_named(&mut text, word, u64::from(number))?;
    Ok(text)
}

fn fip_fault_text(alloc: Global, fault: FipFault) -> Result<Vec<u8>, NoMemory>
    ensures { IfOk result (λ found. found.items ≡ text.fip_fault_text fault) }
{
    match fault {
        FipFault::ShortHeader => word(alloc, b"short-header"),
        FipFault::BadName => word(alloc, b"bad-name"),
        FipFault::ZeroSerial => word(alloc, b"zero-serial"),
        FipFault::NoEnd(i) => numbered(alloc, b"no-end ", i),
        FipFault::TooMany => word(alloc, b"too-many"),
        FipFault::Duplicate(i) => numbered(alloc, b"duplicate ", i),
        FipFault::Beyond(i) => numbered(alloc, b"beyond ", i),
    }
}

fn pack_fault_text(alloc: Global, fault: PackFault) -> Result<Vec<u8>, NoMemory>
    ensures { IfOk result (λ found. found.items ≡ said.pack_fault_text fault) }
{
    match fault {
        PackFault::TooMany => word(alloc, b"too-many"),
        PackFault::Duplicate(i) => numbered(alloc, b"duplicate ", i),
        PackFault::NilGuid(i) => numbered(alloc, b"nil-uuid ", i),
        PackFault::BadAlign => word(alloc, b"bad-align"),
        PackFault::TooLarge => word(alloc, b"too-large"),
    }
}

// `BadCount` and `TooLarge` are faults of a manifest that is made. The others are of reading one.
fn manifest_fault_text(alloc: Global, fault: ManifestFault) -> Result<Vec<u8>, NoMemory>
    ensures { IfOk result (λ found. found.items ≡ said.manifest_fault_text fault) }
{
    match fault {
        ManifestFault::VersionTooHigh => word(alloc, b"version-too-high"),
        ManifestFault::BadCount => word(alloc, b"bad-count"),
        _ => word(alloc, b"too-large"),
    }
}

fn line_of(alloc: Global, word: &[u8], what: &[u8]) -> Result<Vec<u8>, NoMemory>
    ensures { IfOk result (λ line. line.items ≡ word.now ++ what.now ++ codes "\n") }
{
    let mut line = Vec::from_slice(alloc, word)?;
    add(&mut line, what)?;
    add(&mut line, b"\n")?;
    Ok(line)
}

fn no_entry_line(alloc: Global, guid: &Guid) -> Result<Vec<u8>, NoMemory>
    ensures { IfOk result (λ line. line.items ≡ codes "no-entry " ++ guid_text guid.now ++ codes "\n") }
{
    let mut line = Vec::from_slice(alloc, b"no-entry ")?;
    add_guid(&mut line, guid)?;
    add(&mut line, b"\n")?;
    Ok(line)
}

fn not_capsule_line(alloc: Global, fault: CapsuleFault) -> Result<Vec<u8>, NoMemory>
    ensures { IfOk result (λ line. line.items ≡ codes "not-capsule " ++ decimal (capsule_fault_number fault) ++ codes "\n") }
{
    let mut line = Vec::new(alloc);
    add_named(&mut line, b"not-capsule ", u64::from(fault.number()))?;
    add(&mut line, b"\n")?;
    Ok(line)
}

/// The line of a stop. It is empty where the sink takes no more, and for want of memory.
#[tactic(auto, unfolding(crate::specs::Lines::stop_line))]
pub fn stop_line(alloc: Global, stop: &Stop) -> Result<Vec<u8>, NoMemory>
    ensures { IfOk result (λ line. line.items ≡ said.stop_line stop.now) }
{
    match stop {
        Stop::Usage => word(
            alloc,
            b"usage: fip info|create|update|remove|unpack|manifest|capsule|package\n",
        ),
        Stop::FileFault => word(alloc, b"file-fault\n"),
        Stop::SinkFault | Stop::NoMemory => Ok(Vec::new(alloc)),
        Stop::NotFip(fault) => line_of(
            alloc,
            b"not-fip ",
            fip_fault_text(alloc, *fault)?.as_slice(),
        ),
        Stop::NoSuchEntry(guid) => no_entry_line(alloc, guid),
        Stop::NotPacked(fault) => line_of(
            alloc,
            b"pack ",
            pack_fault_text(alloc, *fault)?.as_slice(),
        ),
        Stop::NoManifest(fault) => line_of(
            alloc,
            b"manifest ",
            manifest_fault_text(alloc, *fault)?.as_slice(),
        ),
        Stop::TooLong => word(alloc, b"too-long\n"),
        Stop::NotCapsule(fault) => not_capsule_line(alloc, *fault),
    }
}

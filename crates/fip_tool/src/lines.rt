//! The texts that the commands print.
ghost use Rattle.std.specs.Prelude.{◌≡◌, ◌++◌, IfOk, OnOk, codes, decimal, flat_map, reverse};
ghost use Rattle.base_core.specs.Guid.{guid_text};
ghost use Rattle.fip_tool.specs.Lines as said;

use base_core::{Guid, NoMemory};
use fip_tables::{Entry, Toc};
use itoa::Buffer;
use std::alloc::Global;

/// What a command makes.
#[derive(Clone, Copy, Debug)]
pub enum Format {
    Package,
    Capsule,
}

pub fn add(line: &mut Vec<u8>, piece: &[u8]) -> Result<(), NoMemory>
    ensures { OnOk result (line.new.items ≡ line.old.items ++ piece.now) }
{
    line.extend_from_slice(piece)?;
    Ok(())
}

pub fn add_number(line: &mut Vec<u8>, n: u64) -> Result<(), NoMemory>
    ensures { OnOk result (line.new.items ≡ line.old.items ++ decimal n) }
{
    let mut digits = Buffer::new();
    add(line, digits.format(n).as_bytes())
}

/// Adds a name, and the number behind it.
pub fn add_named(line: &mut Vec<u8>, name: &[u8], n: u64) -> Result<(), NoMemory>
    ensures { OnOk result (line.new.items ≡ line.old.items ++ name.now ++ decimal n) }
{
    add(line, name)?;
    add_number(line, n)
}

pub fn add_guid(line: &mut Vec<u8>, guid: &Guid) -> Result<(), NoMemory>
    ensures { OnOk result (line.new.items ≡ line.old.items ++ guid_text guid.now) }
{
    let mut text = [0; 36];
    guid.text(&mut text);
    add(line, &text)
}

fn add_eight_digits(line: &mut Vec<u8>, n: u32) -> Result<(), NoMemory>
    ensures { OnOk result (line.new.items ≡ line.old.items ++ said.eight_digits n) }
{
    let mut digits = [0; 8];
    match hex::encode_to_slice(n.to_be_bytes().as_slice(), &mut digits) {
        Ok(()) => add(line, &digits),
        Err(_) => Err(NoMemory),
    }
}

#[tactic(auto, unfolding(crate::specs::Lines::head_line))]
fn head_line(alloc: Global, toc: &Toc, size: u64) -> Result<Vec<u8>, NoMemory>
    ensures { IfOk result (λ line. line.items ≡ said.head_line toc.now size) }
{
    let mut line = Vec::from_slice(alloc, b"serial=")?;
    add_eight_digits(&mut line, toc.serial)?;
    add_named(&mut line, b" flags=", toc.flags)?;
    add_named(&mut line, b" entries=", toc.entries.len() as u64)?;
    add_named(&mut line, b" size=", size)?;
    add(&mut line, b"\n")?;
    Ok(line)
}

#[tactic(auto, unfolding(crate::specs::Lines::entry_line))]
fn entry_line(alloc: Global, entry: &Entry) -> Result<Vec<u8>, NoMemory>
    ensures { IfOk result (λ line. line.items ≡ said.entry_line entry.now) }
{
    let mut line = Vec::new(alloc);
    add_guid(&mut line, &entry.guid)?;
    add_named(&mut line, b" offset=", entry.offset)?;
    add_named(&mut line, b" size=", entry.size)?;
    add_named(&mut line, b" flags=", entry.flags)?;
    add(&mut line, b"\n")?;
    Ok(line)
}

/// What is printed of a package with this table, of so many bytes: a line for it, and one for each entry.
#[tactic(auto, unfolding(crate::specs::Lines::info_text))]
pub fn info_text(alloc: Global, toc: &Toc, size: u64) -> Result<Vec<u8>, NoMemory>
    ensures { IfOk result (λ text. text.items ≡ said.info_text toc.now size) }
{
    let mut text = head_line(alloc, toc, size)?;
    for entry in toc.entries.as_slice() {
        let line = entry_line(alloc, entry)?;
        add(&mut text, line.as_slice())?;
    }
    Ok(text)
}

/// The line of a package that was written.
#[tactic(auto, unfolding(crate::specs::Lines::packed_line))]
pub fn packed_line(alloc: Global, entries: u64, size: u64) -> Result<Vec<u8>, NoMemory>
    ensures { IfOk result (λ line. line.items ≡ said.packed_line entries size) }
{
    let mut line = Vec::new(alloc);
    add_named(&mut line, b"packed entries=", entries)?;
    add_named(&mut line, b" size=", size)?;
    add(&mut line, b"\n")?;
    Ok(line)
}

/// The line of a manifest that was written.
#[tactic(auto, unfolding(crate::specs::Lines::manifest_line))]
pub fn manifest_line(
    alloc: Global,
    rows: u64,
    size: u64,
    security: u32,
) -> Result<Vec<u8>, NoMemory>
    ensures { IfOk result (λ line. line.items ≡ said.manifest_line rows size security) }
{
    let mut line = Vec::new(alloc);
    add_named(&mut line, b"manifest rows=", rows)?;
    add_named(&mut line, b" size=", size)?;
    add_named(&mut line, b" security=", u64::from(security))?;
    add(&mut line, b"\n")?;
    Ok(line)
}

/// The line of a capsule that was written.
#[tactic(auto, unfolding(crate::specs::Lines::capsule_line))]
pub fn capsule_line(alloc: Global, items: u64, size: u64) -> Result<Vec<u8>, NoMemory>
    ensures { IfOk result (λ line. line.items ≡ said.capsule_line items size) }
{
    let mut line = Vec::new(alloc);
    add_named(&mut line, b"capsule items=", items)?;
    add_named(&mut line, b" size=", size)?;
    add(&mut line, b"\n")?;
    Ok(line)
}

/// The line of what was made: of so many payloads, in a file of so many bytes.
pub fn made_line(alloc: Global, format: Format, count: u64, size: u64) -> Result<Vec<u8>, NoMemory>
    ensures { IfOk result (λ line. line.items ≡ said.made_line format count size) }
{
    match format {
        Format::Package => packed_line(alloc, count, size),
        Format::Capsule => capsule_line(alloc, count, size),
    }
}

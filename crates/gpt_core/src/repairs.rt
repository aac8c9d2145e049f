//! Repairing a table.

ghost use Rattle.flash_core.specs.Calls.{Goes, WritesWithin};
ghost use Rattle.std.specs.Prelude.{◌≡◌, ℕ, List, Ok, ◌+◌, ◌-◌, ◌*◌, ◌<◌, ◌≤◌, Some, length, replicate, IsTrue, OnOk};
ghost use Rattle.base_core.specs.Block.{block_bytes};
ghost use Rattle.base_core.specs.Puts.{PutsBytes};
ghost use Rattle.flash_core.specs.Counts.{lowered_by};
ghost use Rattle.flash_core.specs.May.{May};
ghost use Rattle.flash_core.specs.Told.{Told, NothingDirty, is_guarded};
ghost use Rattle.gpt_core.specs.declared.layout.Places.{Places};
ghost use Rattle.gpt_core.specs.declared.table.WhichTable.{WhichTable};
ghost use Rattle.gpt_core.specs.Places.{through};
ghost use Rattle.gpt_core.specs.PlacesOf.{places_of};
ghost use Rattle.gpt_core.specs.View.{view_of, writes_seen};
ghost use Rattle.gpt_core.specs.Table.{Table as Said, FitsTable, blocks_of, entry_number_of, header_at, other, entries_at, copy_in, DecidesTable, BothSay, header_lead, header_places, header_back, header_with, header_bytes, table_in_image, copy_from, copy_to};
ghost use Rattle.gpt_core.specs.Repair.{MendsTable, HeadersGuarded, StaysBeside, TouchesToMend, Ready, RepairSteps, IsMended, writes_to_mend};

use crate::headers::{
    ENTRY_SIZE, HEADER_SIZE, REVISION, blocks_for, entries_place, header_place, other_copy,
};
use crate::reading::Table;
use crate::steps::repair_copy;
use crate::table::{TableCopy, WhichTable};
use base_core::{BLOCK_BYTES, crc32, put, put_at, put4, put8};
use flash_core::{Flash, FlashStop};

/// A number, with what its type says of it.
fn ranged(number: u64) -> u64
    ensures same { result ≡ number }
    ensures low { number < 18446744073709551616 }
{
    number
}

/// The size of a GUID.
fn size_of(guid: &[u8; 16]) -> usize
    ensures value { result ≡ length guid.now }
    ensures sixteen { length guid.now ≡ 16 }
{
    let bytes = *guid;
    bytes.len()
}

/// How many entries a table has, with what its type says of it.
fn number_in_table(table: &Table) -> u32
    requires few { entry_number_of table.now ≤ 128 }
    ensures value { result ≡ entry_number_of table.now }
    ensures disk { length table.now.disk ≡ 16 }
    ensures first { table.now.first < 18446744073709551616 }
    ensures last { table.now.last < 18446744073709551616 }
{
    let _first = ranged(table.first);
    let _last = ranged(table.last);
    let _size = size_of(&table.disk);
    (table.entries.len() / 128) as u32
}

/// The bytes of a header before its checksum.
#[tactic(auto, unfolding(crate::specs::Table::header_lead))]
fn put_lead(out: &mut [u8]) -> usize
    requires { 92 ≤ length out.old }
    ensures { PutsBytes 0 16 header_lead out.old out.new result }
{
    let named = put(out, 0, b"EFI PART".as_slice());
    let revised = put4(out, named, REVISION);
    put4(out, revised, HEADER_SIZE)
}

/// Those from the checksum to the disk's GUID.
fn put_places(out: &mut [u8], at: usize, copy: TableCopy, blocks: u32, table: &Table) -> usize
    requires room { at + 36 ≤ length out.old }
    requires some { 1 ≤ blocks }
    ensures { PutsBytes at 36 (header_places copy blocks table.now) out.old out.new result }
{
    let zero = put4(out, at, 0);
    let own = put8(out, zero, header_place(copy, blocks) as u64);
    let beside = put8(out, own, header_place(other_copy(copy), blocks) as u64);
    let first = put8(out, beside, table.first);
    put8(out, first, table.last)
}

/// And those behind the GUID.
fn put_back(out: &mut [u8], at: usize, copy: TableCopy, blocks: u32, table: &Table) -> usize
    requires room { at + 20 ≤ length out.old }
    requires fits { FitsTable blocks table.now }
    ensures { PutsBytes at 20 (header_back copy blocks table.now) out.old out.new result }
{
    let number = number_in_table(table);
    let place = put8(
        out,
        at,
        entries_place(copy, blocks, blocks_for(number)) as u64,
    );
    let count = put4(out, place, number);
    let entry = put4(out, count, ENTRY_SIZE);
    put4(out, entry, crc32(table.entries.as_slice()))
}

/// The header of a copy with this checksum.
fn header_of(copy: TableCopy, blocks: u32, table: &Table, sum: u32) -> [u8; 92]
    requires fits { FitsTable blocks table.now }
    ensures bytes { result ≡ header_with copy blocks table.now sum }
    ensures long { length result ≡ 92 }
{
    let mut out = [0; 92];
    let lead = put_lead(&mut out);
    let summed = put4(&mut out, lead, sum);
    let placed = put_places(&mut out, summed, copy, blocks, table);
    let named = put(&mut out, placed, &table.disk);
    put_back(&mut out, named, copy, blocks, table);
    out
}

/// Sets each byte to zero.
fn clear(out: &mut [u8])
    ensures { out.new ≡ replicate (length out.old) 0 }
{
    out.fill(0);
}

/// Spells the block of a copy's header.
fn spell(copy: TableCopy, blocks: u32, table: &Table, out: &mut [u8])
    requires fits { FitsTable blocks table.now }
    requires size { length out.old ≡ block_bytes }
    ensures { out.new ≡ header_bytes copy blocks table.now }
{
    let sum = crc32(&header_of(copy, blocks, table, 0));
    let header = header_of(copy, blocks, table, sum);
    clear(out);
    put_at(out, 0, &header);
}

/// Repairs a copy, so that it says the table.
fn mend<D: Flash>(
    flash: &mut D,
    table: &Table,
    copy: TableCopy,
    buf: &mut [u8],
) -> Result<(), FlashStop>
    requires on { IsTrue (D.on flash.old) }
    requires fits { FitsTable (D.blocks flash.old) table.now }
    requires room { block_bytes ≤ length buf.old }

    ensures steps { IsTrue D.tells → Ready copy (D.blocks flash.old) table.now (D.told flash.old)
        → RepairSteps (IsMended (D.blocks flash.old) table.now) result (D.blocks flash.old) table.now (D.told flash.new) }
    ensures writes { let n = D.blocks flash.old in let k = blocks_of (entry_number_of table.now) in
        WritesWithin D.Flash (copy_from copy n k) (copy_to copy n k) (2 + 2 * k) result flash.old flash.new }
    ensures settled { OnOk result (IsTrue D.tells → NothingDirty (D.told flash.new)) }
{
    let blocks = flash.blocks();
    let number = number_in_table(table);
    let header = header_place(copy, blocks);
    let first = entries_place(copy, blocks, blocks_for(number));
    let (head, _rest) = buf.split_at_mut(BLOCK_BYTES as usize);
    spell(copy, blocks, table, head);
    repair_copy(flash, header, first, head, table.entries.as_slice())
}

/// Repairs the copy of a table that reading found to need it, from the one that decides. It erases the header's block and settles
/// it, then writes the entries and settles them, then the header. The first 4096 bytes of the buffer are used.
pub fn repair_table<D: Flash>(
    flash: &mut D,
    table: &Table,
    which: WhichTable,
    buf: &mut [u8],
) -> Result<(), FlashStop>
    requires on { IsTrue (D.on flash.old) }
    requires fits { FitsTable (D.blocks flash.old) table.now }
    requires room { block_bytes ≤ length buf.old }
    requires read { IsTrue D.tells → table_in_image (D.blocks flash.old) (D.told flash.old).now ≡ Some (table.now, which) }

    ensures mends { IsTrue D.tells → HeadersGuarded (D.blocks flash.old) (D.told flash.old)
        → MendsTable result (D.blocks flash.old) table.now (D.told flash.new) }
    ensures none { which ≡ WhichTable.Same → flash.new ≡ flash.old }
    ensures alone { IsTrue D.tells → StaysBeside (D.blocks flash.old) table.now which (D.told flash.old) (D.told flash.new) }
    // On every device: no other block is erased or programmed.
    ensures touches { TouchesToMend (D.blocks flash.old) table.now which (D.writes flash.old) (D.writes flash.new) }
    // When done nothing is dirty, whatever is guarded.
    ensures settled { OnOk result (IsTrue D.tells → NothingDirty (D.told flash.old) → NothingDirty (D.told flash.new)) }
    ensures goes { Goes D.Flash result flash.old flash.new }
    // When done, as many erases and programs were done as the copy that is repaired asks for.
    ensures spent { let writes = writes_to_mend which (blocks_of (entry_number_of table.now)) in
        OnOk result (D.arming flash.new ≡ lowered_by writes (D.arming flash.old)) }
    ensures buffer { length buf.new ≡ length buf.old }
{
    match which {
        WhichTable::Same => Ok(()),
        WhichTable::RepairPrimary => mend(flash, table, TableCopy::Primary, buf),
        WhichTable::RepairBackup => mend(flash, table, TableCopy::Backup, buf),
    }
}

/// A repair of a table leaves the flash that its partitions are, in each image that a loss may leave and, where nothing is dirty
/// afterwards, as it is told. None of its blocks is erased or programmed.
pub fn repairs_leave_the_partitions()
    ensures images { (blocks : ℕ) (t : Said) (which : WhichTable) (p : Places) (s u : Told) (image : List ℕ)
        → places_of blocks t ≡ Ok p → NothingDirty s → StaysBeside blocks t which s u → May u image
        → through p image ≡ through p s.now }
    ensures view { (blocks : ℕ) (t : Said) (which : WhichTable) (p : Places) (s u : Told) → places_of blocks t ≡ Ok p
        → NothingDirty s → NothingDirty u → StaysBeside blocks t which s u → view_of p u ≡ view_of p s }
    ensures writes { (blocks : ℕ) (t : Said) (which : WhichTable) (p : Places) (old new : ℕ → ℕ) → places_of blocks t ≡ Ok p
        → TouchesToMend blocks t which old new → writes_seen p new ≡ writes_seen p old }
{}

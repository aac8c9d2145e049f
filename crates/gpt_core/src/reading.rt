//! Reading the table of a device.

ghost use Rattle.flash_core.specs.Calls.{Reads};
ghost use Rattle.std.specs.Prelude.{◌≡◌, ◌+◌, ◌*◌, ◌<◌, ◌≤◌, ℕ, List, None, Some, Option, length, slice_range, IsTrue, IsErrOf, IfOk, IfSome};
ghost use Rattle.std.specs.Option.{ForSome};
ghost use Rattle.base_core.specs.Block.{block_bytes};
ghost use Rattle.base_core.specs.Bytes.{same_bytes, num_at};
ghost use Rattle.gpt_core.specs.declared.table.TableCopy.{TableCopy};
ghost use Rattle.gpt_core.specs.Table.{Table as Said, IsCopy, FitsTable, blocks_of, number_in, entry_number_of, header_at, entries_at, is_header, table_entries_in, partition_table_of, checked_table, copy_in, same_table, deciding_table, table_in_image};
ghost use Rattle.gpt_core.specs.Reading.{flash_result, ReadsCopy};

use crate::headers::{ENTRY_SIZE, blocks_for, entries_place, header_place, is_header_of};
use crate::table::{TableCopy, WhichTable};
use base_core::{BLOCK_BYTES, NoMemory, crc32, le32_at, le64_at};
use flash_core::{Flash, FlashStop, read_block};
use std::alloc::Global;
use std::marker::Model;
use thiserror::Error;

/// A table: the disk's GUID, its first and last usable block, and its entries of 128 bytes, one after the other.
#[derive(Drop)]
pub struct Table {
    pub disk: [u8; 16],
    pub first: u64,
    pub last: u64,
    pub entries: Vec<u8>,
}

impl Model for Table {
    ghost use Rattle.gpt_core.specs.Table.{Table as Said};

    ghost Value = { Said };

    ghost view = { λ t. record { disk = t.disk; first = t.first; last = t.last; entries = t.entries.items } };
}

/// Why no table was read: neither copy is valid, or the flash stopped, or there was no memory for the entries.
#[derive(Clone, Copy, Debug, PartialEq, Eq, Error)]
pub enum GptStop {
    #[error("neither copy of the table is valid")]
    NoTable,
    #[error("{0}")]
    Flash(FlashStop),
    #[error("no memory")]
    NoMemory,
}

impl From<FlashStop> for GptStop {
    ghost use Rattle.std.specs.Prelude.{◌≡◌};
    ghost use Rattle.gpt_core.specs.declared.reading.GptStop.TheVariants as gpt;

    ghost from_gives = { λ stop e. e ≡ gpt.Flash stop };

    fn from(stop: FlashStop) -> Self {
        GptStop::Flash(stop)
    }
}

impl From<NoMemory> for GptStop {
    ghost use Rattle.std.specs.Prelude.{◌≡◌};
    ghost use Rattle.gpt_core.specs.declared.reading.GptStop.TheVariants as gpt;

    ghost from_gives = { λ none e. e ≡ gpt.NoMemory };

    fn from(_: NoMemory) -> Self {
        GptStop::NoMemory
    }
}

// So many zeros.
fn zeros(alloc: Global, size: usize) -> Result<Vec<u8>, NoMemory>
    ensures { IfOk result (λ v. length v.items ≡ size) }
{
    let mut bytes = Vec::new(alloc);
    bytes.resize(size, 0)?;
    Ok(bytes)
}

/// Reads so many bytes from a place on.
fn read_bytes<D: Flash>(
    alloc: Global,
    flash: &mut D,
    at: u32,
    size: usize,
) -> Result<Vec<u8>, GptStop>
    requires on { IsTrue (D.on flash.old) }
    requires inside { at + size ≤ block_bytes * D.blocks flash.old }

    ensures bytes { IfOk result (λ v. IsTrue D.tells → v.items ≡ slice_range (D.told flash.old).now at (at + size)) }
    ensures long { IfOk result (λ v. length v.items ≡ size) }
    ensures reads { ReadsCopy D.Flash result flash.old flash.new }
{
    let Ok(mut bytes) = zeros(alloc, size) else {
        return Err(GptStop::NoMemory);
    };
    flash.read(at, bytes.as_mut_slice())?;
    Ok(bytes)
}

/// The entries that the header of a copy speaks of.
fn read_entries<D: Flash>(
    alloc: Global,
    flash: &mut D,
    copy: TableCopy,
    header: &[u8],
) -> Result<Vec<u8>, GptStop>
    requires on { IsTrue (D.on flash.old) }
    requires long { 92 ≤ length header.now }
    requires header { IsTrue (is_header copy (D.blocks flash.old) header.now) }

    ensures bytes { IfOk result (λ v. IsTrue D.tells
        → v.items ≡ table_entries_in copy (D.blocks flash.old) header.now (D.told flash.old).now) }
    ensures count { IfOk result (λ v. length v.items ≡ number_in header.now * 128) }
    ensures reads { ReadsCopy D.Flash result flash.old flash.new }
{
    let blocks = flash.blocks();
    let number = le32_at(header, 80);
    let place = entries_place(copy, blocks, blocks_for(number));
    read_bytes(
        alloc,
        flash,
        BLOCK_BYTES * place,
        number as usize * ENTRY_SIZE as usize,
    )
}

/// The table by a header and the entries that it speaks of.
fn table_by(header: &[u8], entries: Vec<u8>) -> Table
    requires { 92 ≤ length header.now }
    ensures { result ≡ partition_table_of header.now entries.items }
{
    let mut disk = [0; 16];
    disk.copy_from_slice(&header[56..72]);
    Table {
        disk,
        first: le64_at(header, 40),
        last: le64_at(header, 48),
        entries,
    }
}

/// The same, if the entries have the header's checksum.
fn checked_by(header: &[u8], entries: Vec<u8>) -> Option<Table>
    requires { 92 ≤ length header.now }
    ensures { result ≡ checked_table header.now entries.items }
{
    if le32_at(header, 88) == crc32(entries.as_slice()) {
        Some(table_by(header, entries))
    } else {
        None
    }
}

/// What a copy says, where it is valid.
fn read_copy<D: Flash>(
    alloc: Global,
    flash: &mut D,
    copy: TableCopy,
) -> Result<Option<Table>, GptStop>
    requires on { IsTrue (D.on flash.old) }

    ensures value { IfOk result (λ r. IsTrue D.tells → r ≡ copy_in copy (D.blocks flash.old) (D.told flash.old).now) }
    ensures fits { IfOk result (λ r. ForSome r (FitsTable (D.blocks flash.old))) }
    ensures reads { ReadsCopy D.Flash result flash.old flash.new }
{
    let blocks = flash.blocks();
    let mut header = [0; BLOCK_BYTES as usize];
    read_block(flash, header_place(copy, blocks), &mut header)?;
    if !is_header_of(copy, blocks, &header) {
        return Ok(None);
    }
    let entries = read_entries(alloc, flash, copy, &header)?;
    Ok(checked_by(&header, entries))
}

pub fn is_same_list(bytes: &[u8], other: &[u8]) -> bool
    ensures { result ≡ same_bytes bytes.now other.now }
{
    bytes == other
}

/// Whether two tables say the same.
fn is_same(table: &Table, other: &Table) -> bool
    ensures { result ≡ same_table table.now other.now }
{
    let disk = is_same_list(&table.disk, &other.disk);
    let entries = is_same_list(table.entries.as_slice(), other.entries.as_slice());
    disk && table.first == other.first && table.last == other.last && entries
}

/// What is to be repaired, where the primary says a table.
fn beside(table: &Table, backup: &Option<Table>) -> WhichTable
    ensures { Some (table.now, result) ≡ deciding_table (Some table.now) backup.now }
{
    match backup {
        Some(other) if is_same(table, other) => WhichTable::Same,
        _ => WhichTable::RepairBackup,
    }
}

/// The table that decides, of what the copies say, and what is to be repaired.
fn decide(primary: Option<Table>, backup: Option<Table>) -> Option<(Table, WhichTable)>
    ensures { result ≡ deciding_table primary backup }
{
    if let Some(table) = primary {
        let which = beside(&table, &backup);
        return Some((table, which));
    }
    if let Some(table) = backup {
        return Some((table, WhichTable::RepairPrimary));
    }
    None
}

/// Reads the table that decides: the primary where it is valid, else the backup. NoTable exactly where neither is.
pub fn read_table<D: Flash>(alloc: Global, flash: &mut D) -> Result<(Table, WhichTable), GptStop>
    requires on { IsTrue (D.on flash.old) }

    ensures table { IfOk result (λ r. IsTrue D.tells → table_in_image (D.blocks flash.old) (D.told flash.old).now ≡ Some r) }
    ensures none { IsErrOf result GptStop.NoTable → IsTrue D.tells
        → table_in_image (D.blocks flash.old) (D.told flash.old).now ≡ None }
    ensures fits { IfOk result (λ r. FitsTable (D.blocks flash.old) r.0) }
    ensures reads { Reads D.Flash (flash_result result) flash.old flash.new }
{
    let primary = read_copy(alloc, flash, TableCopy::Primary)?;
    let backup = read_copy(alloc, flash, TableCopy::Backup)?;
    match decide(primary, backup) {
        Some(found) => Ok(found),
        None => Err(GptStop::NoTable),
    }
}

/// A copy says a table exactly where its header and its entries are those of the format.
pub fn a_copy_is_its_bytes()
    ensures says { (copy : TableCopy) (blocks : ℕ) (image : List ℕ) (t : Said)
        → copy_in copy blocks image ≡ Some t → IsCopy copy blocks image t }
    ensures said { (copy : TableCopy) (blocks : ℕ) (image : List ℕ) (t : Said)
        → IsCopy copy blocks image t → copy_in copy blocks image ≡ Some t }
{}

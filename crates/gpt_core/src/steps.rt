//! The steps of a repair of a table.

ghost use Rattle.std.specs.Prelude.{◌⊎◌, ◌≡◌, ℕ, ◌+◌, ◌*◌, ◌<◌, ◌≤◌, length, IsTrue, OnOk};
ghost use Rattle.base_core.specs.Block.{block_bytes, block, blank};
ghost use Rattle.flash_core.specs.Told.{NothingDirty};
ghost use Rattle.gpt_core.specs.Repair.{ClearsHeader, FillsEntries, WritesHeader, IsMended, RepairSteps, Writing};
ghost use Rattle.gpt_core.specs.Writes.{end_of_blocks, blocks_filled, FitsBlock, FitsBlocks, HoldsFrom, Spans};
ghost use Rattle.flash_core.specs.Calls.{WritesWithin};

use base_core::BLOCK_BYTES;
use flash_core::{Flash, FlashStop};

/// Erases the block of a header: erase, barrier.
pub fn clear_header<D: Flash>(flash: &mut D, header: u32) -> Result<(), FlashStop>
    requires on { IsTrue (D.on flash.old) }
    requires inside { header < D.blocks flash.old }
    ensures steps { IsTrue D.tells → ClearsHeader (D.blocks flash.old) header result (D.told flash.old) (D.told flash.new) }
    ensures writes { WritesWithin D.Flash (block_bytes * header) (block_bytes * header + block_bytes) 1 result flash.old flash.new }
    ensures empty { OnOk result (IsTrue D.tells → block header (D.told flash.new).now ≡ blank block_bytes) }
{
    flash.erase(header)?;
    flash.barrier()
}

/// Writes over the block of a header that was erased: program, barrier.
pub fn write_header<D: Flash>(flash: &mut D, b: u32, bytes: &[u8]) -> Result<(), FlashStop>
    requires on { IsTrue (D.on flash.old) }
    requires fits { FitsBlock (D.blocks flash.old) b bytes.now }
    requires empty { IsTrue D.tells → block b (D.told flash.old).now ≡ blank block_bytes }
    ensures steps { IsTrue D.tells → WritesHeader (D.blocks flash.old) b bytes.now result (D.told flash.old) (D.told flash.new) }
    ensures writes { WritesWithin D.Flash (block_bytes * b) (block_bytes * b + block_bytes) 1 result flash.old flash.new }
    ensures settled { OnOk result (IsTrue D.tells → NothingDirty (D.told flash.new)) }
{
    flash.program(BLOCK_BYTES * b, bytes)?;
    flash.barrier()
}

/// Writes over a block: erase, program. Nothing settles it yet.
fn write_block<D: Flash>(flash: &mut D, b: u32, bytes: &[u8]) -> Result<(), FlashStop>
    requires on { IsTrue (D.on flash.old) }
    requires fits { FitsBlock (D.blocks flash.old) b bytes.now }
    ensures writes { WritesWithin D.Flash (block_bytes * b) (block_bytes * b + block_bytes) 2 result flash.old flash.new }
    ensures written { OnOk result (IsTrue D.tells → HoldsFrom (D.told flash.new).now b bytes.now) }
{
    flash.erase(b)?;
    flash.program(BLOCK_BYTES * b, bytes)
}

/// Writes bytes over blocks from one on, each block by itself, rising. Nothing settles them yet.
fn write_blocks<D: Flash>(flash: &mut D, first: u32, bytes: &[u8]) -> Result<(), FlashStop>
    requires on { IsTrue (D.on flash.old) }
    requires fits { FitsBlocks (D.blocks flash.old) first bytes.now }
    ensures writes { let size = length bytes.now in WritesWithin D.Flash (block_bytes * first) (end_of_blocks first size)
        (2 * blocks_filled size) result flash.old flash.new }
    ensures written { OnOk result (IsTrue D.tells → HoldsFrom (D.told flash.new).now first bytes.now) }
{
    if bytes.len() <= BLOCK_BYTES as usize {
        return write_block(flash, first, bytes);
    }
    let (front, rest) = bytes.split_at(BLOCK_BYTES as usize);
    write_block(flash, first, front)?;
    write_blocks(flash, first + 1, rest)
}

/// Writes the entries of a table, and settles them.
pub fn write_entries<D: Flash>(flash: &mut D, first: u32, bytes: &[u8]) -> Result<(), FlashStop>
    requires on { IsTrue (D.on flash.old) }
    requires fits { FitsBlocks (D.blocks flash.old) first bytes.now }
    ensures steps { IsTrue D.tells
        → FillsEntries (D.blocks flash.old) first bytes.now result (D.told flash.old) (D.told flash.new) }
    ensures writes { let size = length bytes.now in WritesWithin D.Flash (block_bytes * first) (end_of_blocks first size)
        (2 * blocks_filled size) result flash.old flash.new }
{
    write_blocks(flash, first, bytes)?;
    flash.barrier()
}

/// Repairs a copy of a table, from its header and entries: the header's block is erased and settled, then the entries are written
/// and settled, then the header.
pub fn repair_copy<D: Flash>(
    flash: &mut D,
    header: u32,
    first: u32,
    head: &[u8],
    entries: &[u8],
) -> Result<(), FlashStop>
    requires on { IsTrue (D.on flash.old) }
    requires header_fits { FitsBlock (D.blocks flash.old) header head.now }
    requires entries_fit { FitsBlocks (D.blocks flash.old) first entries.now }
    requires apart { (header < first) ⊎ (first + blocks_filled (length entries.now) ≤ header) }
    ensures steps { IsTrue D.tells → (x : Writing (D.blocks flash.old) header first head.now entries.now (D.told flash.old))
        → RepairSteps (IsMended (D.blocks flash.old) x.t) result (D.blocks flash.old) x.t (D.told flash.new) }
    ensures writes { (low high : ℕ) → Spans low high header first (length entries.now)
        → WritesWithin D.Flash low high (2 + 2 * blocks_filled (length entries.now)) result flash.old flash.new }
    ensures settled { OnOk result (IsTrue D.tells → NothingDirty (D.told flash.new)) }
{
    clear_header(flash, header)?;
    write_entries(flash, first, entries)?;
    write_header(flash, header, head)
}

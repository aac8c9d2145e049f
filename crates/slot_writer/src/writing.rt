//! Writing behind what was written.
ghost use Rattle.std.specs.Prelude.{◌≡◌, ◌+◌, ◌-◌, ◌*◌, ◌/◌, ◌%◌, ◌<◌, ◌≤◌, ◌++◌, length, take, IsTrue, OnOk, replicate, drop};
ghost use Rattle.base_core.specs.Block.{block_bytes, granule_bytes};
ghost use Rattle.flash_core.specs.Calls.{Goes};
ghost use Rattle.flash_core.specs.Touches.{TouchesOnly};
ghost use Rattle.slot_writer.specs.Slots.{Appends, Erases, FinishesImage, IsBlankAhead, Programs, blocks_for, done_of, kept_of};
ghost use Rattle.slot_writer.specs.Writes.{SpendsArming, writes_behind, writes_to_append, writes_to_finish};

use base_core::{BLOCK_BYTES, GRANULE_BYTES};
use flash_core::{Flash, FlashStop};

/// What a program takes, in bytes.
const GRANULE: usize = GRANULE_BYTES as usize;

/// How many blocks so many bytes reach.
fn blocks_for(bytes: u32) -> u32
    requires { bytes ≤ 1048576 }
    ensures { result ≡ blocks_for bytes }
{
    (bytes + (BLOCK_BYTES - 1)) / BLOCK_BYTES
}

/// Erases the blocks from the first to before the end, rising.
fn erase_blocks<D: Flash>(flash: &mut D, first: u32, end: u32) -> Result<(), FlashStop>
    requires on { IsTrue (D.on flash.old) }
    requires inside { end ≤ D.blocks flash.old }
    requires order { first ≤ end }

    ensures erases { IsTrue D.tells → Erases result first end (D.told flash.old) (D.told flash.new) }
    ensures goes { Goes D.Flash result flash.old flash.new }
    ensures arming { SpendsArming result (end - first) (D.arming flash.old) (D.arming flash.new)
        (D.counts flash.old) (D.counts flash.new) }
    // on every device: no other block is erased
    ensures touches { TouchesOnly (block_bytes * first) (block_bytes * end) (D.writes flash.old) (D.writes flash.new) }
{
    for block in first..end {
        flash.erase(block)?;
    }
    Ok(())
}

/// Programs whole granules behind those of an image whose slot begins at a block. Before that it
/// erases the blocks that the image reaches with them for the first time.
fn program_behind<D: Flash>(
    flash: &mut D,
    first: u32,
    done: u32,
    bytes: &[u8],
) -> Result<(), FlashStop>
    requires on { IsTrue (D.on flash.old) }
    requires behind { 8 ≤ first }
    requires granule { done % granule_bytes ≡ 0 }
    requires granules { length bytes.now % granule_bytes ≡ 0 }
    requires size { done + length bytes.now ≤ 1048576 }
    requires inside { first + blocks_for (done + length bytes.now) ≤ D.blocks flash.old }
    requires ahead { IsTrue D.tells → IsBlankAhead first done (D.told flash.old).now }

    ensures programs { IsTrue D.tells → Programs result first done bytes.now (D.told flash.old) (D.told flash.new) }
    ensures still { length bytes.now ≡ 0 → flash.new ≡ flash.old }
    ensures goes { Goes D.Flash result flash.old flash.new }
    ensures arming { SpendsArming result (writes_behind done (length bytes.now))
        (D.arming flash.old) (D.arming flash.new) (D.counts flash.old) (D.counts flash.new) }
    // on every device: no block that holds nothing of the range is erased or programmed
    ensures touches { TouchesOnly (block_bytes * first + done) (block_bytes * (first + blocks_for (done + length bytes.now)))
        (D.writes flash.old) (D.writes flash.new) }
{
    if bytes.is_empty() {
        return Ok(());
    }
    let end = done + bytes.len() as u32;
    erase_blocks(flash, first + blocks_for(done), first + blocks_for(end))?;
    flash.program(BLOCK_BYTES * first + done, bytes)
}

/// Keeps bytes behind those that are kept.
fn keep(rest: &mut [u8; GRANULE], kept: usize, bytes: &[u8])
    requires { kept + length bytes.now ≤ granule_bytes }
    ensures { take (kept + length bytes.now) rest.new ≡ take kept rest.old ++ bytes.now }
{
    rest[kept..kept + bytes.len()].copy_from_slice(bytes);
}

/// Appends bytes where nothing is kept.
fn append_whole<D: Flash>(
    flash: &mut D,
    first: u32,
    size: u32,
    rest: &mut [u8; GRANULE],
    bytes: &[u8],
) -> Result<(), FlashStop>
    requires on { IsTrue (D.on flash.old) }
    requires behind { 8 ≤ first }
    requires granule { size % granule_bytes ≡ 0 }
    requires size { size + length bytes.now ≤ 1048576 }
    requires inside { first + blocks_for (size + length bytes.now) ≤ D.blocks flash.old }
    requires ahead { IsTrue D.tells → IsBlankAhead first size (D.told flash.old).now }

    ensures appends { IsTrue D.tells → Appends result first size rest.old bytes.now rest.new (D.told flash.old) (D.told flash.new) }
    ensures kept { OnOk result (take (length bytes.now % granule_bytes) rest.new
        ≡ drop (length bytes.now - length bytes.now % granule_bytes) bytes.now) }
    ensures still { length bytes.now < granule_bytes → flash.new ≡ flash.old }
    ensures goes { Goes D.Flash result flash.old flash.new }
    ensures arming { SpendsArming result (writes_behind size (length bytes.now - length bytes.now % granule_bytes))
        (D.arming flash.old) (D.arming flash.new) (D.counts flash.old) (D.counts flash.new) }
    ensures touches { TouchesOnly (block_bytes * first + size)
        (block_bytes * (first + blocks_for (done_of (size + length bytes.now))))
        (D.writes flash.old) (D.writes flash.new) }
{
    let whole = bytes.len() - bytes.len() % GRANULE;
    program_behind(flash, first, size, &bytes[..whole])?;
    keep(rest, 0, &bytes[whole..]);
    Ok(())
}

/// Appends bytes to an image whose slot begins at block `first` and that has `size` bytes so far.
/// `rest` begins with those of them that fill no granule of 16 bytes. Whole granules are programmed,
/// the first of them alone where bytes were kept, and what fills none is kept. A block of 4096 bytes
/// is erased before the program that reaches it first. No barrier is made.
///
/// A stop is the flash's. What is kept is of no use after one.
pub fn append<D: Flash>(
    flash: &mut D,
    first: u32,
    size: u32,
    rest: &mut [u8; GRANULE],
    bytes: &[u8],
) -> Result<(), FlashStop>
    requires on { IsTrue (D.on flash.old) }
    requires behind { 8 ≤ first }
    requires size { size + length bytes.now ≤ 1048576 }
    requires inside { first + blocks_for (size + length bytes.now) ≤ D.blocks flash.old }
    requires ahead { IsTrue D.tells → IsBlankAhead first (done_of size) (D.told flash.old).now }

    ensures appends { IsTrue D.tells → Appends result first size rest.old bytes.now rest.new (D.told flash.old) (D.told flash.new) }
    // on every device: the bytes that are kept, and how many erases and programs were made
    ensures kept { OnOk result (take ((size + length bytes.now) % granule_bytes) rest.new ≡ kept_of size rest.old bytes.now) }
    // on every device: it is not touched where no granule becomes whole
    ensures still { done_of (size + length bytes.now) ≡ done_of size → flash.new ≡ flash.old }
    ensures arming { SpendsArming result (writes_to_append size (length bytes.now))
        (D.arming flash.old) (D.arming flash.new) (D.counts flash.old) (D.counts flash.new) }
    ensures goes { Goes D.Flash result flash.old flash.new }
    // On every device: no block is erased or programmed but from the bytes that are new on the flash to the end of the last block
    // that they reach.
    ensures touches { TouchesOnly (block_bytes * first + done_of size)
        (block_bytes * (first + blocks_for (done_of (size + length bytes.now)))) (D.writes flash.old) (D.writes flash.new) }
{
    let kept = size as usize % GRANULE;
    if kept == 0 {
        return append_whole(flash, first, size, rest, bytes);
    }
    if kept + bytes.len() < GRANULE {
        keep(rest, kept, bytes);
        return Ok(());
    }
    let done = size - kept as u32;
    let room = GRANULE - kept;
    keep(rest, kept, &bytes[..room]);
    program_behind(flash, first, done, &*rest)?;
    append_whole(flash, first, done + GRANULE_BYTES, rest, &bytes[room..])
}

/// The kept bytes with 0xFF behind them.
fn padded(rest: &[u8; GRANULE], kept: usize) -> [u8; GRANULE]
    requires { kept ≤ granule_bytes }
    ensures { result ≡ take kept rest.now ++ replicate (granule_bytes - kept) 255 }
{
    let mut last = [0xFF; GRANULE];
    last[..kept].copy_from_slice(&rest[..kept]);
    last
}

/// How many bytes of whole granules so many kept bytes take: one granule, or none.
fn granule_for(kept: usize) -> usize
    requires { kept < granule_bytes }
    ensures { result ≡ granule_bytes * ((kept + (granule_bytes - 1)) / granule_bytes) }
{
    if kept == 0 { 0 } else { GRANULE }
}

/// Ends an image whose slot begins at block `first` and that has `size` bytes, of which `rest` begins
/// with those that fill no granule. They are programmed, with 0xFF up to 16 bytes, behind an erase
/// where they begin a block. A barrier is made in any case.
pub fn finish<D: Flash>(
    flash: &mut D,
    first: u32,
    size: u32,
    rest: &[u8; GRANULE],
) -> Result<(), FlashStop>
    requires on { IsTrue (D.on flash.old) }
    requires behind { 8 ≤ first }
    requires size { size ≤ 1048576 }
    requires inside { first + blocks_for size ≤ D.blocks flash.old }
    requires ahead { IsTrue D.tells → IsBlankAhead first (done_of size) (D.told flash.old).now }

    ensures finishes { IsTrue D.tells → FinishesImage result first size rest.now (D.told flash.old) (D.told flash.new) }
    // on every device: how many erases and programs were made
    ensures arming { SpendsArming result (writes_to_finish size)
        (D.arming flash.old) (D.arming flash.new) (D.counts flash.old) (D.counts flash.new) }
    ensures goes { Goes D.Flash result flash.old flash.new }
    // on every device: no block before the kept bytes, nor behind the one that they reach, is erased or programmed
    ensures touches { TouchesOnly (block_bytes * first + done_of size) (block_bytes * (first + blocks_for size))
        (D.writes flash.old) (D.writes flash.new) }
{
    let kept = size as usize % GRANULE;
    let last = padded(rest, kept);
    program_behind(flash, first, size - kept as u32, &last[..granule_for(kept)])?;
    flash.barrier()
}

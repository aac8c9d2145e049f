//! Marks: granules of 16 bytes that aren't blank. A block of 4096 bytes has 256 of them.
ghost use Rattle.std.specs.Prelude.{◌≡◌, ◌⊎◌, ◌+◌, ◌*◌, ◌<◌, ◌≤◌, IsTrue, IfOk, OnOk, length};
ghost use Rattle.base_core.specs.Block.{block_bytes, granule};
ghost use Rattle.flash_core.specs.Counts.{lowered};
ghost use Rattle.flash_core.specs.Calls.{Goes, Reads};
ghost use Rattle.flash_core.specs.Touches.{TouchesOnly};
ghost use Rattle.fwu_formats.specs.Image.{is_blank, marks};
ghost use Rattle.marks_core.specs.Marks.{Adds, Clears, TakesClear, is_clear};

use base_core::{BLOCK_BYTES, GRANULE_BYTES};
use flash_core::{Flash, FlashStop, read_block};

fn all_erased(bytes: &[u8]) -> bool
    ensures { result ≡ is_blank bytes.now }
{
    bytes.iter().all(|byte| *byte == 0xFF)
}

/// The number of marks in a block: its granules before the first blank one, of which no more than the limit count.
/// It reads granule by granule, and no further than that blank one.
pub fn count<D: Flash>(flash: &mut D, block: u32, limit: u32) -> Result<u32, FlashStop>
    requires on { IsTrue (D.on flash.old) }
    requires inside { block < D.blocks flash.old }
    requires limit { limit ≤ 256 }

    ensures marks { IfOk result (λ n. IsTrue D.tells →
        n ≡ marks (D.told flash.old).now block limit) }
    ensures within { IfOk result (λ n. n ≤ limit) }
    ensures reads { Reads D.Flash result flash.old flash.new }
{
    let mut bytes = [0; GRANULE_BYTES as usize];
    for place in 0..limit {
        flash.read(BLOCK_BYTES * block + GRANULE_BYTES * place, &mut bytes)?;
        if all_erased(&bytes) {
            return Ok(place);
        }
    }
    Ok(limit)
}

/// Programs 16 zero bytes into granule `at` of a block, which is blank, and makes a barrier.
pub fn add<D: Flash>(flash: &mut D, block: u32, at: u32) -> Result<(), FlashStop>
    requires on { IsTrue (D.on flash.old) }
    requires inside { block < D.blocks flash.old }
    requires place { at ≤ 255 }
    requires blank { IsTrue D.tells → IsTrue (is_blank (granule block at (D.told flash.old).now)) }

    ensures adds { IsTrue D.tells → Adds result block at (D.told flash.old) (D.told flash.new) }
    ensures goes { Goes D.Flash result flash.old flash.new }
    // on every device: one program
    ensures spent { OnOk result (D.arming flash.new ≡ lowered (D.arming flash.old)) }
    // on every device: no other block is programmed
    ensures touches { TouchesOnly (block_bytes * block) (block_bytes * block + block_bytes)
        (D.writes flash.old) (D.writes flash.new) }
{
    flash.program(
        BLOCK_BYTES * block + GRANULE_BYTES * at,
        &[0; GRANULE_BYTES as usize],
    )?;
    flash.barrier()
}

/// Erases a block and makes a barrier, unless the block is blank. The first 4096 bytes of the buffer are used.
pub fn clear<D: Flash>(flash: &mut D, block: u32, buf: &mut [u8]) -> Result<(), FlashStop>
    requires on { IsTrue (D.on flash.old) }
    requires inside { block < D.blocks flash.old }
    requires room { block_bytes ≤ length buf.old }

    ensures clears { IsTrue D.tells → Clears result block (D.told flash.old) (D.told flash.new) }
    ensures goes { Goes D.Flash result flash.old flash.new }
    // on every device: one erase, or none
    ensures spent { OnOk result ((D.arming flash.new ≡ D.arming flash.old)
        ⊎ (D.arming flash.new ≡ lowered (D.arming flash.old))) }
    // where the content is told, by the bytes
    ensures once { IsTrue D.tells → OnOk result
        (TakesClear (is_clear block (D.told flash.old).now) (D.arming flash.old) (D.arming flash.new)) }
    ensures buffer { length buf.new ≡ length buf.old }
    // on every device: no other block is erased
    ensures touches { TouchesOnly (block_bytes * block) (block_bytes * block + block_bytes)
        (D.writes flash.old) (D.writes flash.new) }
{
    clear_by(flash, block, &mut buf[..BLOCK_BYTES as usize])
}

fn clear_by<D: Flash>(flash: &mut D, block: u32, buf: &mut [u8]) -> Result<(), FlashStop>
    requires on { IsTrue (D.on flash.old) }
    requires inside { block < D.blocks flash.old }
    requires room { length buf.old ≡ block_bytes }

    ensures clears { IsTrue D.tells → Clears result block (D.told flash.old) (D.told flash.new) }
    ensures goes { Goes D.Flash result flash.old flash.new }
    // on every device: one erase, or none
    ensures spent { OnOk result ((D.arming flash.new ≡ D.arming flash.old)
        ⊎ (D.arming flash.new ≡ lowered (D.arming flash.old))) }
    // where the content is told, by the bytes
    ensures once { IsTrue D.tells → OnOk result
        (TakesClear (is_clear block (D.told flash.old).now) (D.arming flash.old) (D.arming flash.new)) }
    ensures buffer { length buf.new ≡ length buf.old }
    // on every device: no other block is erased
    ensures touches { TouchesOnly (block_bytes * block) (block_bytes * block + block_bytes)
        (D.writes flash.old) (D.writes flash.new) }
{
    read_block(flash, block, buf)?;
    if all_erased(buf) {
        return Ok(());
    }
    flash.erase(block)?;
    flash.barrier()
}

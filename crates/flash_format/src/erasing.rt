//! Erasing the front of a flash.
ghost use Rattle.std.specs.Prelude.{◌-◌, ◌*◌, ◌≤◌, IsTrue, OnOk};
ghost use Rattle.base_core.specs.Block.{block_bytes};
ghost use Rattle.flash_core.specs.Told.{NothingDirty};
ghost use Rattle.flash_format.specs.Places.{IsBare, OnlyErased, Erased};
ghost use Rattle.flash_format.specs.Stops.{ClearsFirst, IsReadyDevice};
ghost use Rattle.flash_core.specs.Calls.{WritesWithin};

use flash_core::{Flash, FlashStop};

/// Erases block 0, which holds the layout, and makes a barrier.
fn erase_layout<D: Flash>(flash: &mut D) -> Result<(), FlashStop>
    requires on { IsTrue (D.on flash.old) }

    // on every device: one erase
    ensures writes { WritesWithin D.Flash 0 block_bytes 1 result flash.old flash.new }
    ensures erased { OnOk result (IsTrue D.tells → Erased 0 block_bytes (D.told flash.new).now) }
    ensures clean { OnOk result (IsTrue D.tells → NothingDirty (D.told flash.new)) }
    ensures only { IsTrue D.tells → OnlyErased (D.told flash.old) (D.told flash.new) }
{
    flash.erase(0)?;
    flash.barrier()
}

/// Erases the blocks from block 1 to before the count.
fn erase_behind<D: Flash>(flash: &mut D, count: u32) -> Result<(), FlashStop>
    requires ready { IsReadyDevice D.Flash count flash.old }
    requires some { 1 ≤ count }

    ensures writes { WritesWithin D.Flash block_bytes (block_bytes * count) (count - 1) result flash.old flash.new }
    ensures erased { OnOk result (IsTrue D.tells → Erased block_bytes (block_bytes * count) (D.told flash.new).now) }
    ensures only { IsTrue D.tells → OnlyErased (D.told flash.old) (D.told flash.new) }
{
    for block in 1..count {
        flash.erase(block)?;
    }
    Ok(())
}

/// Erases the first blocks: block 0 with a barrier behind it, and then the others.
pub fn erase_all<D: Flash>(flash: &mut D, count: u32) -> Result<(), FlashStop>
    requires ready { IsReadyDevice D.Flash count flash.old }
    requires some { 1 ≤ count }

    // on every device: one erase of each block
    ensures writes { WritesWithin D.Flash 0 (block_bytes * count) count result flash.old flash.new }
    ensures erased { OnOk result (IsTrue D.tells → Erased 0 (block_bytes * count) (D.told flash.new).now) }
    ensures clears { ClearsFirst D.Flash flash.old flash.new }
    ensures bare { OnOk result (IsTrue D.tells → IsBare (D.told flash.new)) }
{
    erase_layout(flash)?;
    erase_behind(flash, count)
}

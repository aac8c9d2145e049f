//! The metadata and the layout of a flash that is formatted.
ghost use Rattle.std.specs.Prelude.{◌≡◌, ◌*◌, ◌<◌, Ok, IsTrue, OnOk};
ghost use Rattle.base_core.specs.Block.{block_bytes, block};
ghost use Rattle.flash_core.specs.Told.{NothingDirty};
ghost use Rattle.flash_core.specs.Replaces.{padded};
ghost use Rattle.fwu_formats.specs.Layout.{blocks_needed, layout_bytes};
ghost use Rattle.fwu_formats.specs.Image.{layout_seen};
ghost use Rattle.fwu_formats.specs.Metadata.{first_meta, replica_bytes};
ghost use Rattle.flash_format.specs.Formatted.{HasAtMost, HoldFirst, IsOrdered, IsSpelled};
ghost use Rattle.flash_format.specs.Places.{Erased};
ghost use Rattle.flash_format.specs.Stops.{IsReadyDevice};
ghost use Rattle.flash_core.specs.Calls.{WritesWithin};

use base_core::BLOCK_BYTES;
use flash_core::{Flash, FlashStop};
use fwu_formats::{FIRST_REPLICA, SECOND_REPLICA};
use meta_layout::{Layout, Meta};

/// Writes the first metadata of a layout to both replicas, whose blocks are erased.
fn write_replicas<D: Flash>(flash: &mut D, layout: &Layout) -> Result<(), FlashStop>
    requires on { IsTrue (D.on flash.old) }
    requires erased { IsTrue D.tells → Erased (block_bytes * 1) (block_bytes * 3) (D.told flash.old).now }

    ensures writes { WritesWithin D.Flash (block_bytes * 1) (block_bytes * 3) 2 result flash.old flash.new }
    ensures replicas { OnOk result (IsTrue D.tells → HoldFirst layout.now (D.told flash.new).now) }
    ensures spelled { OnOk result (IsTrue D.tells →
        (block 1 (D.told flash.new).now ≡ padded (replica_bytes layout.now (first_meta layout.now)))
        × (block 2 (D.told flash.new).now ≡ padded (replica_bytes layout.now (first_meta layout.now)))) }
    ensures clean { OnOk result (IsTrue D.tells → NothingDirty (D.told flash.new)) }
{
    let mut bytes = [0xFF; BLOCK_BYTES as usize];
    let meta = Meta::first(layout);
    let _rows = layout.rows();
    meta.write(layout, &mut bytes);
    let size = Meta::replica_size(layout);
    flash.program(BLOCK_BYTES * FIRST_REPLICA, &bytes[..size])?;
    flash.program(BLOCK_BYTES * SECOND_REPLICA, &bytes[..size])?;
    flash.barrier()
}

/// Writes the layout to block 0, which is erased.
fn write_layout<D: Flash>(flash: &mut D, layout: &Layout) -> Result<(), FlashStop>
    requires ready { IsReadyDevice D.Flash (blocks_needed layout.now) flash.old }
    requires erased { IsTrue D.tells → Erased 0 block_bytes (D.told flash.old).now }

    ensures writes { WritesWithin D.Flash 0 block_bytes 1 result flash.old flash.new }
    ensures layout { OnOk result (IsTrue D.tells → layout_seen (D.told flash.new).now ≡ Ok layout.now) }
    ensures spelled { OnOk result (IsTrue D.tells → block 0 (D.told flash.new).now ≡ padded (layout_bytes layout.now)) }
    ensures seen { IsTrue D.tells → HasAtMost layout.now (D.told flash.new).now }
    ensures clean { OnOk result (IsTrue D.tells → NothingDirty (D.told flash.new)) }
{
    let mut bytes = [0xFF; BLOCK_BYTES as usize];
    layout.write(&mut bytes);
    flash.program(0, &bytes)?;
    flash.barrier()
}

/// Writes the metadata and then the layout, which makes the flash one that is formatted.
pub fn write_records<D: Flash>(flash: &mut D, layout: &Layout) -> Result<(), FlashStop>
    requires ready { IsReadyDevice D.Flash (blocks_needed layout.now) flash.old }
    requires erased { IsTrue D.tells → Erased 0 (block_bytes * 3) (D.told flash.old).now }

    // on every device: one program of each replica, and one of the layout
    ensures writes { WritesWithin D.Flash 0 (block_bytes * 3) 3 result flash.old flash.new }
    ensures both { OnOk result (IsTrue D.tells → HoldFirst layout.now (D.told flash.new).now) }
    ensures layout { OnOk result (IsTrue D.tells → layout_seen (D.told flash.new).now ≡ Ok layout.now) }
    ensures spelled { OnOk result (IsTrue D.tells → IsSpelled layout.now (D.told flash.new).now) }
    // At any exit no other layout is there.
    ensures seen { IsTrue D.tells → HasAtMost layout.now (D.told flash.new).now }
    ensures clean { OnOk result (IsTrue D.tells → NothingDirty (D.told flash.new)) }
    // Whatever a loss leaves, no layout is there before both replicas are.
    ensures ordered { IsTrue D.tells → NothingDirty (D.told flash.old) → IsOrdered layout.now (D.told flash.new) }
{
    write_replicas(flash, layout)?;
    write_layout(flash, layout)
}

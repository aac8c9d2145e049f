//! Writing the images of a package into bank 0.
ghost use Rattle.std.specs.Prelude.{◌+◌, ◌*◌, ℕ, List, length, IsTrue, OnOk};
ghost use Rattle.base_core.specs.Block.{block_bytes};
ghost use Rattle.fwu_formats.specs.Layout.{blocks_needed, slot_total};
ghost use Rattle.fip_tables.specs.Files.{Tells};
ghost use Rattle.flash_format.specs.Places.{Erased, AllStand};
ghost use Rattle.flash_format.specs.Choosing.{IsPlan, pieces_in};
ghost use Rattle.flash_format.specs.Stops.{ReadsPackage};
ghost use Rattle.flash_format.specs.Stops.{IsReadyDevice, WritesImages};

use crate::images::write_image;
use crate::stops::FormatStop;
use fip_tables::Entry;
use flash_core::Flash;
use host_io::Files;
use meta_layout::Layout;

/// Writes each image to the start of its slot in bank 0, which is erased.
pub fn write_bank<D: Flash, H: Files>(
    flash: &mut D,
    layout: &Layout,
    files: &mut H,
    name: &str,
    entries: &[Entry],
) -> Result<(), FormatStop>
    requires ready { IsReadyDevice D.Flash (blocks_needed layout.now) flash.old }
    requires erased { IsTrue D.tells →
        Erased (block_bytes * 8) (block_bytes * (8 + slot_total layout.now.rows)) (D.told flash.old).now }
    requires planned { IsPlan (H.contents files.old) name.now layout.now entries.now }

    ensures writes { WritesImages D.Flash 8 (block_bytes * 8) (block_bytes * (8 + slot_total layout.now.rows))
        (pieces_in entries.now) result flash.old flash.new }
    ensures bytes { OnOk result (IsTrue D.tells → (file : List ℕ) → Tells (H.contents files.old) name.now file
        → AllStand (length layout.now.rows) layout.now file entries.now (D.told flash.new).now) }
    ensures reads { ReadsPackage H.Files name.now result files.old files.new }
{
    let rows = layout.rows();
    for k in 0..rows.len() {
        let first = layout.start(0, k as u32);
        write_image(flash, first, rows[k].slots, files, name, &entries[k])?;
    }
    Ok(())
}

//! Writing metadata over both replicas.
ghost use Rattle.std.specs.Prelude.{◌≡◌, ◌*◌, ◌%◌, ◌<◌, ◌≤◌, length, take, IsTrue, OnOk};
ghost use Rattle.base_core.specs.Block.{block_bytes, granule_bytes};
ghost use Rattle.flash_core.specs.Counts.{lowered};
ghost use Rattle.flash_core.specs.Calls.{Goes};
ghost use Rattle.flash_core.specs.Replaces.{padded};
ghost use Rattle.flash_core.specs.Touches.{TouchesOnly};
ghost use Rattle.fwu_formats.specs.Layout.{fits_layout};
ghost use Rattle.fwu_formats.specs.Metadata.{fits_meta, replica_bytes};
ghost use Rattle.replicas.specs.Stores.{WritesBoth, Stores};

use flash_core::{Flash, FlashStop, replace};
use fwu_formats::{FIRST_REPLICA, SECOND_REPLICA};
use meta_layout::{Layout, Meta};

/// Writes bytes over replica 0, then over replica 1.
pub fn write_both<D: Flash>(flash: &mut D, bytes: &[u8]) -> Result<(), FlashStop>
    requires on { IsTrue (D.on flash.old) }
    requires granules { length bytes.now % granule_bytes ≡ 0 }
    requires some { 0 < length bytes.now }
    requires fits { length bytes.now ≤ block_bytes }

    ensures writes { IsTrue D.tells → WritesBoth result (padded bytes.now) (D.told flash.old) (D.told flash.new) }
    ensures goes { Goes D.Flash result flash.old flash.new }
    // on every device: two erases and two programs
    ensures spent { OnOk result (D.arming flash.new ≡ lowered (lowered (lowered (lowered (D.arming flash.old))))) }
    // on every device: no block but 1 and 2 is erased or programmed
    ensures touches { TouchesOnly (block_bytes * 1) (block_bytes * 3) (D.writes flash.old) (D.writes flash.new) }
{
    replace(flash, FIRST_REPLICA, bytes)?;
    replace(flash, SECOND_REPLICA, bytes)
}

/// Spells metadata in version 2 at the front of a buffer, up to a whole granule. How many bytes that takes.
pub fn spell(layout: &Layout, meta: &Meta, buf: &mut [u8]) -> usize
    requires fits { IsTrue (fits_meta layout.now meta.now.meta) }
    requires room { block_bytes ≤ length buf.old }

    ensures spelled { take result buf.new ≡ replica_bytes layout.now meta.now.meta }
    ensures layout { IsTrue (fits_layout layout.now) }
    ensures granules { result % granule_bytes ≡ 0 }
    ensures some { 0 < result }
    ensures short { result ≤ 2096 }
    ensures buffer { length buf.new ≡ length buf.old }
{
    layout.fits();
    let size = Meta::replica_size(layout);
    meta.write(layout, buf);
    size
}

/// Writes metadata of the layout in version 2 over replica 0, then over replica 1, each by erase, program and barrier. Where both
/// replicas held the same metadata, a loss of power leaves that or the new one. The first 4096 bytes of the buffer are used.
pub fn store<D: Flash>(
    flash: &mut D,
    layout: &Layout,
    meta: &Meta,
    buf: &mut [u8],
) -> Result<(), FlashStop>
    requires on { IsTrue (D.on flash.old) }
    requires fits { IsTrue (fits_meta layout.now meta.now.meta) }
    requires room { block_bytes ≤ length buf.old }

    ensures stores { IsTrue D.tells → Stores result layout.now meta.now.meta (D.told flash.old) (D.told flash.new) }
    ensures goes { Goes D.Flash result flash.old flash.new }
    // on every device: two erases and two programs
    ensures spent { OnOk result (D.arming flash.new ≡ lowered (lowered (lowered (lowered (D.arming flash.old))))) }
    ensures buffer { length buf.new ≡ length buf.old }
    // on every device: no block but 1 and 2 is erased or programmed
    ensures touches { TouchesOnly (block_bytes * 1) (block_bytes * 3) (D.writes flash.old) (D.writes flash.new) }
{
    let size = spell(layout, meta, buf);
    write_both(flash, &buf[..size])
}

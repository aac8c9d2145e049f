//! Writing the metadata that decides over the replica that lacks it.
ghost use Rattle.std.specs.Prelude.{◌≡◌, ◌≢◌, ◌↔◌, ◌*◌, ◌%◌, ◌<◌, ◌≤◌, Some, length, IsTrue, IfOk, OnOk};
ghost use Rattle.base_core.specs.Block.{block_bytes, granule_bytes, block};
ghost use Rattle.flash_core.specs.Calls.{Goes, Reads};
ghost use Rattle.flash_core.specs.Touches.{TouchesOnly};
ghost use Rattle.fwu_formats.specs.Layout.{fits_layout};
ghost use Rattle.fwu_formats.specs.Metadata.{fits_meta, meta_read, replica_bytes};
ghost use Rattle.fwu_model.specs.Replica.{in_version};
ghost use Rattle.replicas.specs.Which.{Loads};
ghost use Rattle.replicas.specs.Stores.{Repairs, TakesBoth, TakesOne, TakesRepair, TouchesRepair};
ghost use Rattle.replicas.specs.declared.which.Which.TheVariants.{Same, MigrateZero};

use crate::loading::read_replica;
use crate::storing::{spell, write_both};
use crate::which::Which;
use base_core::BLOCK_BYTES;
use flash_core::{Flash, FlashStop, replace};
use fwu_formats::{FIRST_REPLICA, SECOND_REPLICA};
use meta_layout::{Layout, Meta};

/// Whether replica 1 holds the metadata in version 2.
fn holds<D: Flash>(
    flash: &mut D,
    layout: &Layout,
    meta: &Meta,
    buf: &mut [u8],
) -> Result<bool, FlashStop>
    requires on { IsTrue (D.on flash.old) }
    requires room { length buf.old ≡ block_bytes }

    ensures held { IfOk result (λ held. IsTrue D.tells → IsTrue held ↔ (meta_read layout.now (block 2 (D.told flash.old).now) ≡
        Some (in_version 2 meta.now.meta))) }
    ensures reads { Reads D.Flash result flash.old flash.new }
    ensures buffer { length buf.new ≡ length buf.old }
{
    let mut migrated = *meta;
    migrated.migrate();
    match read_replica(flash, layout, SECOND_REPLICA, buf)? {
        Some(other) => Ok(other.is(&migrated)),
        None => Ok(false),
    }
}

/// Whether replica 0 alone is left to be migrated: replica 1 holds the metadata in version 2.
/// Nothing is read where replica 0 is not to be migrated.
fn is_half_migrated<D: Flash>(
    flash: &mut D,
    layout: &Layout,
    meta: &Meta,
    which: Which,
    buf: &mut [u8],
) -> Result<bool, FlashStop>
    requires on { IsTrue (D.on flash.old) }
    requires room { length buf.old ≡ block_bytes }

    ensures held { IfOk result (λ half. IsTrue D.tells → which ≡ MigrateZero → IsTrue half ↔
        (meta_read layout.now (block 2 (D.told flash.old).now) ≡ Some (in_version 2 meta.now.meta))) }
    ensures migrates { IfOk result (λ half. IsTrue half → which ≡ MigrateZero) }
    ensures none { which ≡ Same → flash.new ≡ flash.old }
    ensures reads { Reads D.Flash result flash.old flash.new }
    ensures buffer { length buf.new ≡ length buf.old }
{
    match which {
        Which::MigrateZero => holds(flash, layout, meta, buf),
        Which::Same | Which::RepairZero | Which::RepairOne | Which::MigrateOne => Ok(false),
    }
}

/// Writes over replica 1, which lacks the metadata in version 2, and then over replica 0, which decides and is version 1.
fn migrate_zero<D: Flash>(
    flash: &mut D,
    layout: &Layout,
    meta: &Meta,
    bytes: &[u8],
) -> Result<(), FlashStop>
    requires on { IsTrue (D.on flash.old) }
    requires granules { length bytes.now % granule_bytes ≡ 0 }
    requires some { 0 < length bytes.now }
    requires fits { length bytes.now ≤ block_bytes }
    requires layout { IsTrue (fits_layout layout.now) }
    requires spelled { bytes.now ≡ replica_bytes layout.now meta.now.meta }
    requires of_layout { IsTrue (fits_meta layout.now meta.now.meta) }
    requires loaded { IsTrue D.tells → Loads layout.now MigrateZero meta.now (D.told flash.old).now }
    requires lacks { IsTrue D.tells → meta_read layout.now (block 2 (D.told flash.old).now) ≢ Some (in_version 2 meta.now.meta) }

    ensures repairs { IsTrue D.tells → Repairs result layout.now meta.now (D.told flash.old) (D.told flash.new) }
    ensures goes { Goes D.Flash result flash.old flash.new }
    ensures spent { OnOk result (TakesBoth (D.arming flash.old) (D.arming flash.new)) }
    // on every device: no block but 1 and 2 is erased or programmed
    ensures touches { TouchesOnly (block_bytes * 1) (block_bytes * 3) (D.writes flash.old) (D.writes flash.new) }
{
    replace(flash, SECOND_REPLICA, bytes)?;
    replace(flash, FIRST_REPLICA, bytes)
}

/// Writes the metadata that `load` gave over the replica that lacks it. Where version 1 decides, it writes over the other replica,
/// unless that holds the metadata in version 2, and then over the deciding one. Each is written by erase, program and barrier. The
/// first 4096 bytes of the buffer are used.
pub fn repair<D: Flash>(
    flash: &mut D,
    layout: &Layout,
    meta: &Meta,
    which: Which,
    buf: &mut [u8],
) -> Result<(), FlashStop>
    requires on { IsTrue (D.on flash.old) }
    requires fits { IsTrue (fits_meta layout.now meta.now.meta) }
    requires room { block_bytes ≤ length buf.old }
    requires loaded { IsTrue D.tells → Loads layout.now which meta.now (D.told flash.old).now }

    ensures repairs { IsTrue D.tells → Repairs result layout.now meta.now (D.told flash.old) (D.told flash.new) }
    // on every device: where both replicas hold it in version 2, nothing is called
    ensures none { which ≡ Same → flash.new ≡ flash.old }
    ensures goes { Goes D.Flash result flash.old flash.new }
    // on every device: as many erases and programs as what is to be done asks for
    ensures spent { OnOk result (TakesRepair which (D.arming flash.old) (D.arming flash.new)) }
    // a replica 1 that holds the metadata in version 2 stays, so that one replica is written
    ensures once { OnOk result (IsTrue D.tells → which ≡ MigrateZero →
        meta_read layout.now (block 2 (D.told flash.old).now) ≡ Some (in_version 2 meta.now.meta) →
        TakesOne (D.arming flash.old) (D.arming flash.new)) }
    ensures buffer { length buf.new ≡ length buf.old }
    // on every device: no replica is erased or programmed but those that are to be written
    ensures touches { TouchesRepair which (D.writes flash.old) (D.writes flash.new) }
{
    layout.fits();
    let half = is_half_migrated(flash, layout, meta, which, &mut buf[..BLOCK_BYTES as usize])?;
    let size = spell(layout, meta, buf);
    let bytes = &buf[..size];
    if half {
        return replace(flash, FIRST_REPLICA, bytes);
    }
    match which {
        Which::Same => Ok(()),
        Which::RepairZero => replace(flash, FIRST_REPLICA, bytes),
        Which::RepairOne => replace(flash, SECOND_REPLICA, bytes),
        Which::MigrateZero => migrate_zero(flash, layout, meta, bytes),
        Which::MigrateOne => write_both(flash, bytes),
    }
}

//! Reading the metadata that decides.
ghost use Rattle.std.specs.Prelude.{◌≡◌, ◌<◌, None, length, IsTrue, IfOk, IfSome, IfNone};
ghost use Rattle.std.specs.Option.{ForSome};
ghost use Rattle.base_core.specs.Block.{block, block_bytes};
ghost use Rattle.flash_core.specs.Calls.{Reads};
ghost use Rattle.fwu_formats.specs.Metadata.{fits_meta, meta_read};
ghost use Rattle.replicas.specs.Which.{HasForm, Finds, Found, form_read_of};

use crate::which::{ReplicaStop, Which};
use base_core::BLOCK_BYTES;
use flash_core::{Flash, FlashStop, read_block};
use fwu_formats::{FIRST_REPLICA, SECOND_REPLICA};
use meta_layout::{Layout, Meta};

/// The metadata that a block of the flash is, which is read into a buffer of a block.
pub fn read_replica<D: Flash>(
    flash: &mut D,
    layout: &Layout,
    b: u32,
    buf: &mut [u8],
) -> Result<Option<Meta>, FlashStop>
    requires on { IsTrue (D.on flash.old) }
    requires inside { b < D.blocks flash.old }
    requires room { length buf.old ≡ block_bytes }

    ensures value { IfOk result (λ r. IsTrue D.tells → r ≡ meta_read layout.now (block b (D.told flash.old).now)) }
    ensures form { IfOk result (λ r. ForSome r HasForm) }
    ensures fits { IfOk result (λ r. ForSome r (λ m. IsTrue (fits_meta layout.now m.meta))) }
    ensures reads { Reads D.Flash result flash.old flash.new }
    ensures buffer { length buf.new ≡ length buf.old }
{
    read_block(flash, b, buf)?;
    match Meta::read(layout, buf) {
        Ok(meta) => Ok(Some(meta)),
        Err(_) => Ok(None),
    }
}

/// Which of what the two replicas read as decides, and what is to be done.
fn decide(zero: Option<Meta>, one: Option<Meta>) -> Option<(Meta, Which)>
    requires zero_form { ForSome zero HasForm }
    requires one_form { ForSome one HasForm }

    ensures some { IfSome result (λ r. Finds r.1 r.0 zero one) }
    ensures form { IfSome result (λ r. r.0.form ≡ form_read_of r.1) }
    ensures none { IfNone result ((zero ≡ None) × (one ≡ None)) }
{
    let Some(meta) = zero else {
        let Some(meta) = one else {
            return None;
        };
        if meta.form() == 2 {
            return Some((meta, Which::RepairZero));
        }
        return Some((meta, Which::MigrateOne));
    };
    if meta.form() != 2 {
        return Some((meta, Which::MigrateZero));
    }
    match one {
        Some(other) if other.is(&meta) => Some((meta, Which::Same)),
        _ => Some((meta, Which::RepairOne)),
    }
}

/// Reads the metadata that decides, and says what a repair would write: replica 0 decides where it is metadata of the layout, in
/// version 2 or 1, else replica 1. `NoMetadata` where neither is. A sealed block with a bad field is no metadata.
/// It keeps a block of 4096 bytes on the stack; `load_in` has it from the caller.
pub fn load<D: Flash>(flash: &mut D, layout: &Layout) -> Result<(Meta, Which), ReplicaStop>
    requires on { IsTrue (D.on flash.old) }

    ensures found { Found D.Flash layout.now result flash.old flash.new }
{
    let mut block = [0; BLOCK_BYTES as usize];
    load_in(flash, layout, &mut block)
}

/// As `load`, with the caller's buffer of 4096 bytes, into which each replica is read in turn.
pub fn load_in<D: Flash>(
    flash: &mut D,
    layout: &Layout,
    block: &mut [u8],
) -> Result<(Meta, Which), ReplicaStop>
    requires on { IsTrue (D.on flash.old) }
    requires room { length block.old ≡ block_bytes }

    ensures found { Found D.Flash layout.now result flash.old flash.new }
    ensures buffer { length block.new ≡ length block.old }
{
    let zero = read_replica(flash, layout, FIRST_REPLICA, block)?;
    let one = read_replica(flash, layout, SECOND_REPLICA, block)?;
    match decide(zero, one) {
        Some(found) => Ok(found),
        None => Err(ReplicaStop::NoMetadata),
    }
}

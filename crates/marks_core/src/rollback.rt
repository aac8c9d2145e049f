//! The anti-rollback counter: marks in block 4, an older form, and records in blocks 5 and 6, an own format.
ghost use Rattle.std.specs.Prelude.{◌≡◌, ◌*◌, ◌<◌, ◌≤◌, length, IsTrue, IfOk, OnOk, max, unwrap_or};
ghost use Rattle.base_core.specs.Block.{block_bytes, block};
ghost use Rattle.flash_core.specs.Counts.{lowered};
ghost use Rattle.flash_core.specs.Calls.{Goes, Reads};
ghost use Rattle.fwu_formats.specs.Counter.{counter_in, record_size};
ghost use Rattle.marks_core.specs.Marks.{value_in, place_for, record_place, Raises, TouchesOneRecord};

use crate::marks::count;
use crate::record::{RECORD_BYTES, record_bytes, value_in};
use base_core::BLOCK_BYTES;
use flash_core::{Flash, FlashStop, replace};
use fwu_formats::{COUNTER_BLOCK, COUNTER_LIMIT, FIRST_RECORD, SECOND_RECORD};

/// The value of the record in a block, of which its first 32 bytes are read.
fn record_at<D: Flash>(flash: &mut D, b: u32, front: &mut [u8]) -> Result<Option<u32>, FlashStop>
    requires on { IsTrue (D.on flash.old) }
    requires inside { b < D.blocks flash.old }
    requires room { length front.old ≡ record_size }

    ensures value { IfOk result (λ r. IsTrue D.tells →
        r ≡ value_in (block b (D.told flash.old).now)) }
    ensures reads { Reads D.Flash result flash.old flash.new }
    ensures buffer { length front.new ≡ length front.old }
{
    flash.read(BLOCK_BYTES * b, front)?;
    Ok(value_in(front))
}

fn greatest(marks: u32, first: Option<u32>, second: Option<u32>) -> u32
    ensures { result ≡ max marks (max (unwrap_or first 0) (unwrap_or second 0)) }
{
    marks.max(first.unwrap_or(0).max(second.unwrap_or(0)))
}

/// The counter: the greatest of the first 223 marks of block 4 and of the records in blocks 5 and 6, and 0 where there is none.
pub fn counter<D: Flash>(flash: &mut D) -> Result<u32, FlashStop>
    requires { IsTrue (D.on flash.old) }

    ensures counter { IfOk result (λ n. IsTrue D.tells → n ≡ counter_in (D.told flash.old).now) }
    ensures reads { Reads D.Flash result flash.old flash.new }
{
    let mut front = [0; RECORD_BYTES];
    let marks = count(flash, COUNTER_BLOCK, COUNTER_LIMIT)?;
    let first = record_at(flash, FIRST_RECORD, &mut front)?;
    let second = record_at(flash, SECOND_RECORD, &mut front)?;
    Ok(greatest(marks, first, second))
}

/// Where a new record goes: to block 5 or 6.
fn place_for(first: Option<u32>, second: Option<u32>) -> u32
    ensures value { result ≡ place_for first second }
    ensures inside { (5 ≤ result) × (result ≤ 6) }
{
    let Some(a) = first else {
        return FIRST_RECORD;
    };
    let Some(b) = second else {
        return SECOND_RECORD;
    };
    if b < a { SECOND_RECORD } else { FIRST_RECORD }
}

fn record_place<D: Flash>(flash: &mut D, front: &mut [u8]) -> Result<u32, FlashStop>
    requires on { IsTrue (D.on flash.old) }
    requires room { length front.old ≡ record_size }

    ensures place { IfOk result (λ r. IsTrue D.tells → r ≡ record_place (D.told flash.old).now) }
    ensures inside { IfOk result (λ r. (5 ≤ r) × (r ≤ 6)) }
    ensures reads { Reads D.Flash result flash.old flash.new }
    ensures buffer { length front.new ≡ length front.old }
{
    let first = record_at(flash, FIRST_RECORD, front)?;
    let second = record_at(flash, SECOND_RECORD, front)?;
    Ok(place_for(first, second))
}

/// Raises the counter to a value above it, by one record: erase, program and barrier. It goes into block 5 where neither or only
/// block 6 is a record, and into 6 where only block 5 is. Else it goes over the lower value (5 at a tie). The first 32 bytes of
/// the buffer are used.
pub fn raise<D: Flash>(flash: &mut D, v: u32, buf: &mut [u8]) -> Result<(), FlashStop>
    requires on { IsTrue (D.on flash.old) }
    requires room { block_bytes ≤ length buf.old }
    requires above { IsTrue D.tells → counter_in (D.told flash.old).now < v }

    ensures raises { IsTrue D.tells → Raises result v (D.told flash.old) (D.told flash.new) }
    ensures goes { Goes D.Flash result flash.old flash.new }
    // on every device: one erase and one program
    ensures spent { OnOk result (D.arming flash.new ≡ lowered (lowered (D.arming flash.old))) }
    ensures buffer { length buf.new ≡ length buf.old }
    // on every device: one of blocks 5 and 6 may be erased and programmed, and no other block, so that the other record stays
    ensures touches { TouchesOneRecord (D.writes flash.old) (D.writes flash.new) }
{
    let place = record_place(flash, &mut buf[..RECORD_BYTES])?;
    replace(flash, place, &record_bytes(v))
}

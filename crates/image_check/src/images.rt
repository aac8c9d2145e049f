//! The images of a bank against the rows of its manifest.
ghost use Rattle.std.specs.Prelude.{◌≤◌, length, IsTrue, IfOk};
ghost use Rattle.base_core.specs.Block.{block_bytes};
ghost use Rattle.flash_core.specs.Calls.{Reads};
ghost use Rattle.image_check.specs.Taken.{AreReadable, IsLowestBad, lanes_bytes};

use crate::image::{Images, is_good, new_job};
use crate::side::{LANES_BYTES, first_bad_in_lanes};
use flash_core::{Flash, FlashStop};
use sha256_lanes::Lanes;

/// Whether so many images are hashed side by side: more than two, where the buffer has a block for each of four lanes.
fn are_side_by_side(count: usize, room: usize) -> bool
    ensures { IsTrue result → lanes_bytes ≤ room }
{
    count > 2 && room >= LANES_BYTES
}

/// The lowest image after the manifest that has not the digest of its row.
pub(crate) fn first_bad<D: Flash>(
    flash: &mut D,
    images: &Images<'_>,
    buf: &mut [u8],
) -> Result<Option<u32>, FlashStop>
    requires room { block_bytes ≤ length buf.old }
    requires readable { AreReadable D.Flash flash.old images.now }
    ensures bad { IfOk result (IsLowestBad D.Flash flash.old images.now) }
    ensures reads { Reads D.Flash result flash.old flash.new }
{
    let count = images.rows.len() - 1;
    if are_side_by_side(count, buf.len()) {
        return first_bad_in_lanes(flash, images, buf);
    }
    let empty = Lanes::new().message(0);
    let mut block = images.first;
    for k in 0..count {
        block += images.rows[k].slots;
        let job = new_job(images, k as u32, block);
        if !is_good(flash, images, &empty, job, buf)? {
            return Ok(Some(k as u32 + 1));
        }
    }
    Ok(None)
}

//! One image of a bank against its row.
ghost use Rattle.std.specs.Prelude.{◌≡◌, ◌*◌, ◌<◌, ◌≤◌, ◌^◌, length, IfOk};
ghost use Rattle.base_core.specs.Block.{block_bytes};
ghost use Rattle.base_core.specs.Bytes.{same_bytes};
ghost use Rattle.base_core.specs.Limits.{most_images};
ghost use Rattle.flash_core.specs.Calls.{Reads};
ghost use Rattle.fwu_formats.specs.Manifest as model;
ghost use Rattle.sha256_lanes.specs.Holding.{GoesOnAs};
ghost use Rattle.image_check.specs.Taken.{AreReadable, IsBegun, IsFoundAt, new_job};

use base_core::{BLOCK_BYTES, ImageRow};
use flash_core::{Flash, FlashStop};
use manifest_core::row_at;
use sha256_lanes::Message;

/// The images of a bank: the rows of its layout, the block at which it begins, and the manifest at its front.
#[derive(Clone, Copy, Drop)]
pub(crate) struct Images<'a> {
    pub(crate) rows: &'a [ImageRow],
    pub(crate) first: u32,
    pub(crate) manifest: &'a [u8],
}

/// An image that is hashed: its row, the byte at which it begins, its length, and how many bytes of it are taken in.
#[derive(Clone, Copy, Drop)]
pub(crate) struct Job {
    pub(crate) row: u32,
    pub(crate) at: u32,
    pub(crate) size: u32,
    pub(crate) done: u32,
}

/// The image of row k, which begins at this block, and of which nothing is taken in.
pub(crate) fn new_job(images: &Images<'_>, k: u32, block: u32) -> Job
    requires few { k ≤ most_images }
    requires row { model.field_place model.row_size k ≤ length images.now.manifest.now }
    requires place { block_bytes * block < 2 ^ 32 }
    ensures { result ≡ new_job images.now k block }
{
    let row = row_at(images.manifest, k);
    Job {
        row: k,
        at: BLOCK_BYTES * block,
        size: row.size,
        done: 0,
    }
}

fn is_same(bytes: &[u8], other: &[u8]) -> bool
    ensures { result ≡ same_bytes bytes.now other.now }
{
    bytes == other
}

/// Whether an image, of which a message has taken in the first bytes, has the digest of its row. It goes on alone, in pieces of
/// 4096 bytes, at the buffer's front.
pub(crate) fn is_good<D: Flash>(
    flash: &mut D,
    images: &Images<'_>,
    begun: &Message,
    job: Job,
    buf: &mut [u8],
) -> Result<bool, FlashStop>
    requires room { block_bytes ≤ length buf.old }
    requires readable { AreReadable D.Flash flash.old images.now }
    requires begun { IsBegun D.Flash flash.old images.now (GoesOnAs begun.now) job }
    ensures good { IfOk result (IsFoundAt D.Flash flash.old images.now job.row) }
    ensures reads { Reads D.Flash result flash.old flash.new }
{
    let mut message = *begun;
    let mut done = job.done;
    while job.size - done > 4096 {
        let piece = &mut buf[..4096];
        flash.read(job.at + done, piece)?;
        message.absorb(&*piece);
        done += 4096;
    }
    let rest = &mut buf[..(job.size - done) as usize];
    flash.read(job.at + done, rest)?;
    let digest = message.finish(&*rest, job.size as u64);
    let row = row_at(images.manifest, job.row);
    Ok(is_same(&digest, &row.digest))
}

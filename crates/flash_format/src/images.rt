//! Writing an image of a package into its slot.
ghost use Rattle.std.specs.Prelude.{◌≡◌, ◌+◌, ◌*◌, ◌%◌, ◌<◌, ◌≤◌, ℕ, List, length, drop, IsTrue, IfOk, OnOk};
ghost use Rattle.base_core.specs.Block.{block_bytes, granule_bytes, blank};
ghost use Rattle.host_io.specs.Causes.{HasCause};
ghost use Rattle.fwu_formats.specs.Package.{payload};
ghost use Rattle.host_io.specs.Reads.{ReadsFile};
ghost use Rattle.fip_tables.specs.Files.{Tells};
ghost use Rattle.flash_format.specs.Places.{Erased, HoldsThenErased};
ghost use Rattle.flash_format.specs.Choosing.{IsStored, block_pieces_of};
ghost use Rattle.flash_format.specs.Stops.{ReadsPackage};
ghost use Rattle.flash_format.specs.Stops.{IsReadyDevice, WritesImages};

use crate::stops::FormatStop;
use base_core::{BLOCK_BYTES, GRANULE_BYTES};
use fip_tables::{Entry, payload_at};
use flash_core::Flash;
use host_io::{Failed, Files};

/// The bytes of an image are written in pieces of a block.
const PIECE: u64 = BLOCK_BYTES as u64;

/// Reads a payload from a place of it on, to the end of the buffer or of the payload, and leaves the erased bytes behind it.
/// How many bytes that is, up to a whole granule.
fn read_piece<H: Files>(
    files: &mut H,
    name: &str,
    entry: &Entry,
    done: u64,
    out: &mut [u8],
) -> Result<usize, Failed>
    requires erased { out.old ≡ blank block_bytes }
    requires some { done < entry.now.size }
    requires stored { IsStored (H.contents files.old) name.now entry.now }

    ensures bytes { OnOk result ((file : List ℕ) → Tells (H.contents files.old) name.now file →
        HoldsThenErased 0 block_bytes (drop done (payload file entry.now)) out.new) }
    ensures granules { IfOk result (λ n. n % granule_bytes ≡ 0) }
    ensures some { IfOk result (λ n. (0 < n) × (n ≤ block_bytes)) }
    ensures erased { IfOk result (λ n. Erased n block_bytes out.new) }
    ensures buffer { length out.new ≡ block_bytes }
    ensures files { ReadsFile H.Files name.now files.old files.new }
    ensures cause { HasCause (H.faults files.old) (H.faults files.new) result }
{
    let size = (entry.size - done).min(PIECE) as usize;
    payload_at(files, name, entry, done, &mut out[..size])?;
    let granule = GRANULE_BYTES as usize;
    Ok((size + (granule - 1)) / granule * granule)
}

/// Writes the piece of a payload that begins at a place of it to a block that is erased.
fn write_piece<D: Flash, H: Files>(
    flash: &mut D,
    block: u32,
    files: &mut H,
    name: &str,
    entry: &Entry,
    done: u64,
) -> Result<(), FormatStop>
    requires ready { IsReadyDevice D.Flash (block + 1) flash.old }
    requires erased { IsTrue D.tells → Erased (block_bytes * block) (block_bytes * block + block_bytes) (D.told flash.old).now }
    requires some { done < entry.now.size }
    requires stored { IsStored (H.contents files.old) name.now entry.now }

    ensures writes { WritesImages D.Flash block (block_bytes * block) (block_bytes * block + block_bytes) 1 result
        flash.old flash.new }
    ensures bytes { OnOk result (IsTrue D.tells → (file : List ℕ) → Tells (H.contents files.old) name.now file
        → HoldsThenErased (block_bytes * block) block_bytes (drop done (payload file entry.now)) (D.told flash.new).now) }
    ensures reads { ReadsPackage H.Files name.now result files.old files.new }
{
    let mut bytes = [0xFF; BLOCK_BYTES as usize];
    let size = match read_piece(files, name, entry, done, &mut bytes) {
        Ok(size) => size,
        Err(_) => return Err(FormatStop::ReadFailed),
    };
    flash.program(BLOCK_BYTES * block, &bytes[..size])?;
    Ok(())
}

/// Writes an image to its slot, which is erased, in pieces of at most 4096 bytes.
pub fn write_image<D: Flash, H: Files>(
    flash: &mut D,
    first: u32,
    slots: u32,
    files: &mut H,
    name: &str,
    entry: &Entry,
) -> Result<(), FormatStop>
    requires ready { IsReadyDevice D.Flash (first + slots) flash.old }
    requires erased { IsTrue D.tells → Erased (block_bytes * first) (block_bytes * (first + slots)) (D.told flash.old).now }
    requires fits { entry.now.size ≤ block_bytes * slots }
    requires stored { IsStored (H.contents files.old) name.now entry.now }

    // on every device: one program of each piece
    ensures writes { WritesImages D.Flash first (block_bytes * first) (block_bytes * (first + slots))
        (block_pieces_of entry.now.size) result flash.old flash.new }
    ensures bytes { OnOk result (IsTrue D.tells → (file : List ℕ) → Tells (H.contents files.old) name.now file
        → HoldsThenErased (block_bytes * first) (block_bytes * slots) (payload file entry.now) (D.told flash.new).now) }
    ensures reads { ReadsPackage H.Files name.now result files.old files.new }
{
    let pieces = ((entry.size + (PIECE - 1)) / PIECE) as u32;
    for k in 0..pieces {
        write_piece(flash, first + k, files, name, entry, PIECE * u64::from(k))?;
    }
    Ok(())
}
